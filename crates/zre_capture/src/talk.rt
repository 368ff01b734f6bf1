//! The messages of the peers of the exercise.

ghost use Rattle.std.specs.Prelude.{suc, ◌≡◌, ◌≤◌, ◌+◌, [], ◌∷◌, ◌++◌, ◌%◌, length, codes};
ghost use Rattle.zre_values.specs.Framing.{frame};
ghost use Rattle.zre_msg.specs.Spelling.{head, string};
ghost use Rattle.zre_capture.specs.Draws.{after_draws, octets_drawn};
ghost use Rattle.zre_capture.specs.Exercise.{changes, status, after_content, spelling};

use crate::draws::{MOST_OCTETS, push_drawn};
use zre_values::FewOctets;

// How many of the first messages of a peer, up to this one, are JOIN or LEAVE.
#[tactic(auto, using(crate::proofs::ChangeCounts::changes_by_leave, crate::proofs::ChangeCounts::changes_by_others))]
#[inline(always)]
fn changes(k: u32) -> u32
    ensures { result ≡ changes (suc k) }
{
    if k % 4 == 3 {
        k / 4 * 2 + 2
    } else {
        k / 4 * 2 + 1
    }
}

#[tactic(auto, unfolding(crate::specs::Exercise::status))]
#[inline(always)]
fn status(k: u32) -> u8
    ensures { result ≡ status k }
{
    (changes(k) % 256) as u8
}

#[inline(always)]
fn sequence(k: u32) -> u16
    ensures { result ≡ (2 + k) % 65536 }
{
    ((k as u64 + 2) % 65536) as u16
}

// JOIN or LEAVE of the group, in place of what stands there.
#[inline(always)]
fn spell_change(out: &mut FewOctets<MOST_OCTETS>, command: u8, k: u32)
    ensures { out.new ≡ frame 0 (head command ((2 + k) % 65536) ++ (string (codes "all") ++ status k ∷ [])) }
{
    out.clear();
    out.append(&[0, 11, 0xaa, 0xa1, command, 2]);
    out.append(&sequence(k).to_be_bytes());
    out.append(&[3, b'a', b'l', b'l', status(k)]);
}

// The first frame of a SHOUT to the group, in place of what stands there.
#[inline(always)]
fn spell_shout(out: &mut FewOctets<MOST_OCTETS>, k: u32)
    ensures { out.new ≡ frame 1 (head 3 ((2 + k) % 65536) ++ string (codes "all")) }
{
    out.clear();
    out.append(&[1, 10, 0xaa, 0xa1, 3, 2]);
    out.append(&sequence(k).to_be_bytes());
    out.append(&[3, b'a', b'l', b'l']);
}

// The first frame of a WHISPER, in place of what stands there.
#[inline(always)]
fn spell_whisper(out: &mut FewOctets<MOST_OCTETS>, k: u32)
    ensures { out.new ≡ frame 1 (head 2 ((2 + k) % 65536)) }
{
    out.clear();
    out.append(&[1, 6, 0xaa, 0xa1, 2, 2]);
    out.append(&sequence(k).to_be_bytes());
}

// Appends the frame of a content whose draws begin at x, and tells where they stand after it.
#[inline(always)]
fn push_content(out: &mut FewOctets<MOST_OCTETS>, x: u64) -> u64
    requires { length out.old ≤ 14 }
    ensures octets { out.new ≡ out.old ++ frame 0 (octets_drawn 8 x) }
    ensures after { result ≡ after_draws 8 x }
{
    out.append(&[0, 32]);
    push_drawn(out, 8, x)
}

/// The octets of message k of a peer, whose draws begin at x, in place of what stands there; and where the draws stand
/// after its content.
#[inline(always)]
pub(crate) fn spell(out: &mut FewOctets<MOST_OCTETS>, k: u32, x: u64) -> u64
    ensures octets { out.new ≡ spelling k x }
    ensures after { result ≡ after_content k x }
{
    let kind = k % 4;
    if kind == 1 {
        spell_shout(out, k);
        return push_content(out, x);
    }
    if kind == 2 {
        spell_whisper(out, k);
        return push_content(out, x);
    }
    let command = if kind == 0 { 4 } else { 5 };
    spell_change(out, command, k);
    x
}

/// How many of so many octets come in the first piece.
#[inline(always)]
pub(crate) fn cut_by(draw: u32, len: usize) -> usize
    requires { len ≤ MOST_OCTETS }
    ensures value { result ≡ draw % (len + 1) }
    ensures within { result ≤ len }
{
    (draw % (len as u32 + 1)) as usize
}
