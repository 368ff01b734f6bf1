//! Laws of messages, each the contract of a function without a body, so that a caller has it by a call.

ghost use Rattle.std.specs.Prelude.{◌≡◌, ℕ, ◌<◌, ◌^◌, List, [], ◌++◌, All, slice_index_or, Ok, None};
ghost use Rattle.zre_msg.specs.Spelling.{Means, HasOctets, spell, octets};
ghost use Rattle.zre_msg.specs.Reading.{bad, read_frames};
ghost use Rattle.zre_msg.specs.declared.message.Message.{Message as MessageValue};

/// What is spelled is read as the message that was spelled.
#[inline]
pub fn spelled_is_read()
    ensures { (m : MessageValue) → Means (spell m) m → read_frames (spell m) ≡ Ok m }
{}

/// Frames, the first of them a list of octets, are read as the message that they mean, and where they mean none, none
/// is read.
#[inline]
pub fn frames_are_read_as_they_mean()
    ensures meant { (frames : List (List ℕ)) (m : MessageValue) → Means frames m → read_frames frames ≡ Ok m }
    ensures only { (frames : List (List ℕ)) (m : MessageValue) → All (λ o. o < 2 ^ 8) (slice_index_or frames 0 [])
        → read_frames frames ≡ Ok m → Means frames m }
{}

/// A list of frames means one message at most, and where it means one nothing is wrong with it.
#[inline]
pub fn frames_mean_one_message()
    ensures good { (frames : List (List ℕ)) (m : MessageValue) → Means frames m → bad frames ≡ None }
    ensures one { (frames : List (List ℕ)) (m n : MessageValue) → Means frames m → Means frames n → m ≡ n }
{}

/// No message's octets begin another's: where several stand in a row, each is the one that was sent.
#[inline]
pub fn octets_hold_one_message()
    ensures { (m n : MessageValue) (a b : List ℕ) → HasOctets m → HasOctets n → octets m ++ a ≡ octets n ++ b → m ≡ n }
{}
