// The messages of a recording.
ghost use Rattle.std.specs.Prelude.{◌≡◌, ◌-◌, ◌*◌, ◌≤◌, length, MatchOption};
ghost use Rattle.message.specs.Recordings.{place, PartOf, Steps, Complete};
ghost use Rattle.std.specs.Iterator.{at_most};

use crate::reading::MESSAGE_LEN;
use std::marker::Model;

// A message of a recording as a part of the recording itself, with its ordinal from 0. The last part may be shorter than
// a message; reading it refuses its length.
#[derive(Clone, Copy, Debug, PartialEq, Eq, Hash)]
pub struct Part<'a> {
    pub ordinal: usize,
    pub bytes: &'a [u8],
}

// A recording and the ordinal of the part that comes next: an iterator over its parts.
#[derive(Drop)]
pub struct Recording<'a> {
    bytes: &'a [u8],
    next: usize,
}

// Clauses see the recording and the ordinal.
impl<'a> Model for Recording<'a> {
    ghost use Rattle.message.specs.Recordings.{Place, place};

    ghost Value = { Place };

    ghost view = { λ r. place r.bytes r.next };
}

// The part at an ordinal, unless the recording ends before it.
fn part_at(recording: &[u8], ordinal: usize) -> Option<&[u8]>
    ensures { MatchOption result (length recording.now ≤ 16 * ordinal) (λ p. PartOf recording.entry ordinal p) }
{
    let start = ordinal.checked_mul(MESSAGE_LEN)?;
    if start >= recording.len() {
        return None;
    }
    let rest = &recording[start..];
    Some(&rest[..MESSAGE_LEN.min(rest.len())])
}

impl<'a> Recording<'a> {
    pub fn new(bytes: &'a [u8]) -> Recording<'a>
        ensures starts { result ≡ place bytes.entry 0 }
        ensures complete { Complete bytes.entry result }
    {
        Recording { bytes, next: 0 }
    }
}

impl<'a> Iterator for Recording<'a> {
    type Item = Part<'a>;

    ghost can_next = { λ _. Unit {0} };

    ghost next_gives = { λ s r t. Steps s r t };

    ghost remaining = { λ s. at_most (length s.recording.now - s.next) };

    fn next(&mut self) -> Option<Part<'a>> {
        let ordinal = self.next;
        let bytes = part_at(self.bytes, ordinal)?;
        self.next = ordinal + 1;
        Some(Part { ordinal, bytes })
    }
}
