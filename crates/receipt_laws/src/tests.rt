//! The laws at one owner.

use crate::laws::{calls_keep_own, events_keep_own, lent_is_own, more_is_own};
use crate::owner::Owner;

/// Who owns no file.
struct Nobody;

impl Owner for Nobody {
    ghost own = { λ number segment receipt. ⊥ };
}

/// Who owns every file.
struct Everybody;

impl Owner for Everybody {
    ghost own = { λ number segment receipt. Unit {0} };
}

#[test]
fn laws_hold_of_an_owner() {
    events_keep_own::<Everybody>();
    calls_keep_own::<Nobody>();
    lent_is_own::<Nobody>();
    more_is_own::<Nobody, Everybody>();
}
