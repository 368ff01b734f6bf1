//! The texts of reasons.

ghost use Rattle.std.specs.Prelude.{◌≡◌, ◌++◌, OnOk};
ghost use Rattle.zre_peer.specs.Causes.{cause_text, close_text, fault_text, group_text, ignore_text, numbers_text};
ghost use Rattle.zre_peer.specs.Causes.{refuse_text, zmtp_name};

use crate::causes::{Cause, CloseWhy, IgnoreWhy, RefuseWhy};
use zre_values::{Octets, OutOfMemory, push_decimal, push_quoted};
use zre_zmtp::{ZmtpFault, ZmtpWhy};

/// The name of what is wrong with a stream, as events have it.
pub fn zmtp_name(why: ZmtpWhy) -> &'static [u8]
    ensures { result.now ≡ zmtp_name why }
{
    match why {
        ZmtpWhy::Signature => b"Signature",
        ZmtpWhy::OldVersion => b"OldVersion",
        ZmtpWhy::Mechanism => b"Mechanism",
        ZmtpWhy::Flags => b"Flags",
        ZmtpWhy::CommandName => b"CommandName",
        ZmtpWhy::Metadata => b"Metadata",
        ZmtpWhy::SocketType => b"SocketType",
        ZmtpWhy::Identity => b"Identity",
        ZmtpWhy::PeerError => b"PeerError",
        ZmtpWhy::Order => b"Order",
        ZmtpWhy::TooLarge => b"TooLarge",
        ZmtpWhy::TooManyFrames => b"TooManyFrames",
    }
}

fn push_fault(out: &mut Octets, fault: ZmtpFault) -> Result<(), OutOfMemory>
    ensures { OnOk result (out.new ≡ out.old ++ fault_text fault) }
{
    out.append(zmtp_name(fault.why))?;
    out.push(b' ')?;
    push_decimal(out, fault.place)
}

// A word and two numbers.
fn push_numbers(out: &mut Octets, word: &[u8], a: u64, b: u64) -> Result<(), OutOfMemory>
    ensures { OnOk result (out.new ≡ out.old ++ numbers_text word.now a b) }
{
    out.append(word)?;
    push_decimal(out, a)?;
    out.push(b' ')?;
    push_decimal(out, b)
}

pub(crate) fn push_cause(out: &mut Octets, cause: Cause) -> Result<(), OutOfMemory>
    ensures { OnOk result (out.new ≡ out.old ++ cause_text cause) }
{
    match cause {
        Cause::Beacon => out.append(b"beacon"),
        Cause::Expired => out.append(b"expired"),
        Cause::Link => out.append(b"link"),
        Cause::Reply(fault) => {
            out.append(b"reply ")?;
            push_fault(out, fault)
        }
        Cause::Slow { unsent, size } => push_numbers(out, b"slow ", unsent, size),
        Cause::Shut => out.append(b"shut"),
        Cause::Fault => out.append(b"fault"),
        Cause::Taken => out.append(b"taken"),
        Cause::Hello => out.append(b"hello"),
        Cause::Order { due, got } => {
            push_numbers(out, b"order ", u64::from(due), u64::from(got))
        }
        Cause::Limit => out.append(b"limit"),
        Cause::Stop => out.append(b"stop"),
    }
}

pub(crate) fn push_close(out: &mut Octets, why: CloseWhy) -> Result<(), OutOfMemory>
    ensures { OnOk result (out.new ≡ out.old ++ close_text why) }
{
    match why {
        CloseWhy::Zmtp(fault) => push_fault(out, fault),
        CloseWhy::TooMany => out.append(b"TooMany"),
        CloseWhy::Timeout => out.append(b"Timeout"),
        CloseWhy::Taken => out.append(b"Taken"),
    }
}

fn ignore_name(why: IgnoreWhy) -> &'static [u8]
    ensures { result.now ≡ ignore_text why }
{
    match why {
        IgnoreWhy::NotHello => b"NotHello",
        IgnoreWhy::Limit => b"Limit",
        IgnoreWhy::NoEndpoint => b"NoEndpoint",
        IgnoreWhy::Full => b"Full",
    }
}

pub(crate) fn push_ignore(out: &mut Octets, why: IgnoreWhy) -> Result<(), OutOfMemory>
    ensures { OnOk result (out.new ≡ out.old ++ ignore_text why) }
{
    out.append(ignore_name(why))
}

// A word and a group.
fn push_group(out: &mut Octets, word: &[u8], group: &Octets) -> Result<(), OutOfMemory>
    ensures { OnOk result (out.new ≡ out.old ++ group_text word.now group.now) }
{
    out.append(word)?;
    push_quoted(out, group.as_slice())
}

pub(crate) fn push_refusal(out: &mut Octets, why: &RefuseWhy) -> Result<(), OutOfMemory>
    ensures { OnOk result (out.new ≡ out.old ++ refuse_text why.now) }
{
    match why {
        RefuseWhy::NoPeer(id) => {
            out.append(b"NOPEER ")?;
            id.push_to(out)
        }
        RefuseWhy::TooBig => out.append(b"TOOBIG"),
        RefuseWhy::NoGroup(group) => push_group(out, b"NOGROUP ", group),
        RefuseWhy::Same(group) => push_group(out, b"SAME ", group),
        RefuseWhy::Limit(group) => push_group(out, b"LIMIT ", group),
        RefuseWhy::BadLine(number) => {
            out.append(b"BADLINE ")?;
            push_decimal(out, *number)
        }
    }
}
