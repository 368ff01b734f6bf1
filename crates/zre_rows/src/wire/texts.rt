//! Texts that several subjects answer.

use crate::error::RowError;
use crate::text::Text;
use zre_peer::zmtp_name;
use zre_values::Keys;
use zre_zmtp::{FeedFault, ZmtpFault};

/// Appends the line `fault WHY PLACE`. OutOfMemory is no answer.
pub fn push_fault(answer: &mut Text, fault: FeedFault) {
    match fault {
        FeedFault::Zmtp(ZmtpFault { why, place }) => {
            answer.put(b"fault ");
            answer.count(zmtp_name(why), place);
            answer.end();
        }
        FeedFault::OutOfMemory => answer.fail(RowError::OutOfMemory),
    }
}

/// Appends the fault of what was fed, where it has one.
pub fn push_fed(answer: &mut Text, fed: Result<(), FeedFault>) {
    if let Err(fault) = fed {
        push_fault(answer, fault);
    }
}

/// Appends a line of keys, each after a space, or `none`.
pub fn push_keys(answer: &mut Text, keys: &Keys) {
    if keys.len() == 0 {
        answer.put(b" none");
    }
    for key in keys.as_slice() {
        answer.octet(b' ');
        answer.number(*key);
    }
    answer.end();
}
