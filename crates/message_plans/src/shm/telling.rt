//! Which size of which file a message says.

ghost use Rattle.std.specs.Prelude.{◌≡◌, IfOk, OnOk, OnErr, option_map};
ghost use Rattle.half_model.specs.Planning.{limit_refusal};
ghost use Rattle.half_model.specs.Shm.{told_by, tell_passed, tell_resized, after_tell};
ghost use Rattle.half_model.specs.Shm.{size_said, said, file_of, file_passed};
ghost use Rattle.message_plans.specs.Making.{passing_in, tell_in};
ghost use Rattle.message_plans.specs.Telling.{IsWithinLimits, grows_by};

use super::Shm;
use crate::made::{PassedHandle, ToldSize};
use half_model::{Deed, HalfFault, SentFile};
use wp_outside::HandleKind;

impl Shm {
    /// The size that a message for this object says, with the handle that it carries.
    pub(crate) fn told_by(
        &self,
        object: u32,
        deed: &Deed,
        passing: Option<PassedHandle>,
    ) -> Option<ToldSize>
        ensures { option_map tell_in result
            ≡ told_by self.now object deed.now (option_map passing_in passing) }
    {
        match passing {
            Some(it) => told_passed(deed, it),
            None => self.told_resized(object, deed),
        }
    }

    // The size that a message without a handle says, of a pool's file.
    fn told_resized(&self, object: u32, deed: &Deed) -> Option<ToldSize>
        ensures { option_map tell_in result ≡ tell_resized self.now object deed.now }
    {
        match deed {
            Deed::Resize { size } => match self.pool_at(object) {
                Some(file) => Some(ToldSize {
                    file,
                    size: said(*size),
                    is_new: false,
                }),
                None => None,
            },
            _ => None,
        }
    }

    /// Takes in the size that a message says, if it says one, and answers whether a told size
    /// grows.
    ///
    /// # Errors
    /// The limit that would be passed, or want of memory; nothing is then changed.
    pub(crate) fn tell(&mut self, tell: Option<ToldSize>) -> Result<bool, HalfFault>
        ensures limit { IsWithinLimits result
            (limit_refusal (option_map tell_in tell) self.old.told) }
        ensures grew { IfOk result (λ grew.
            grew ≡ grows_by (option_map tell_in tell) self.old.told) }
        ensures ok { OnOk result (self.new ≡ record self.old {
          told = after_tell (option_map tell_in tell) self.old.told;
        }) }
        ensures err { OnErr result (self.new ≡ self.old) }
    {
        match tell {
            Some(tell) => self.told.tell(tell),
            None => Ok(false),
        }
    }
}

// The size that a message with a file's handle says.
fn told_passed(deed: &Deed, it: PassedHandle) -> Option<ToldSize>
    ensures { option_map tell_in result
        ≡ tell_passed it.handle.kind deed.now (passing_in it) }
{
    match it.handle.kind {
        HandleKind::File => Some(ToldSize {
            file: file_of(it),
            size: size_said(deed),
            is_new: it.is_new,
        }),
        HandleKind::PipeWrite => None,
    }
}

// The size that a message with a handle says; 0 where it says none.
fn size_said(deed: &Deed) -> u32
    ensures { result ≡ size_said deed.now }
{
    match deed {
        Deed::MakePool { pool: _, size } => said(*size),
        Deed::Keymap { size } => *size,
        _ => 0,
    }
}

// A size below 0 counts as 0.
fn said(size: i32) -> u32
    ensures { result ≡ said size }
{
    if size < 0 { 0 } else { size as u32 }
}

// The file that a handle is.
fn file_of(it: PassedHandle) -> SentFile
    ensures { result ≡ file_of (passing_in it) }
{
    SentFile {
        rid: it.rid,
        number: it.handle.number,
    }
}

/// The file that a handle leads to, if it leads to one.
pub(crate) fn file_passed(passing: Option<PassedHandle>) -> Option<SentFile>
    ensures { result ≡ file_passed (option_map passing_in passing) }
{
    match passing {
        Some(it) => match it.handle.kind {
            HandleKind::File => Some(file_of(it)),
            HandleKind::PipeWrite => None,
        },
        None => None,
    }
}
