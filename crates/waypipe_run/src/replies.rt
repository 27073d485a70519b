//! A status and the text that is written with it.

ghost use Rattle.std.specs.Prelude.{◌≡◌, ◌++◌, IfOk};
ghost use Rattle.waypipe_run.specs.Texts.{limit_text};

use crate::status::Status;
use crate::texts::limit_text;
use half_model::Limit;
use std::alloc::{AllocError, Global};
use wl_wire::Text;

/// A status, and the whole text that is written with it.
#[derive(Drop)]
pub struct Reply {
    pub status: Status,
    pub text: Text,
}

/// A status whose text is one line.
pub fn alone(alloc: Global, status: Status, text: &str) -> Result<Reply, AllocError>
    ensures status { IfOk result (λ reply. reply.status ≡ status) }
    ensures text { IfOk result (λ reply. reply.text ≡ text.now) }
{
    ended(status, Text::new(alloc), text)
}

/// A limit that was met.
pub fn limited(alloc: Global, which: Limit) -> Result<Reply, AllocError>
    ensures status { IfOk result (λ reply. reply.status ≡ Status.Limit which) }
    ensures text { IfOk result (λ reply. reply.text ≡ limit_text which) }
{
    let text = limit_text(alloc, which)?;
    alone(alloc, Status::Limit { which }, text.as_str())
}

/// A status whose text is a report and a last line.
pub fn ended(status: Status, mut report: Text, last: &str) -> Result<Reply, AllocError>
    ensures status { IfOk result (λ reply. reply.status ≡ status) }
    ensures text { IfOk result (λ reply. reply.text ≡ report ++ last.now) }
{
    report.append(last.as_bytes())?;
    Ok(Reply {
        status,
        text: report,
    })
}
