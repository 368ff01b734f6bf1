//! The head lines of captures.

ghost use Rattle.std.specs.Prelude.{◌≡◌, ◌++◌, ◌&&◌, [], ◌∷◌, None, codes, decimal, IfOk, OnOk, MatchOption};
ghost use Rattle.std.specs.Str.{bytes_eq};
ghost use Rattle.zre_values.specs.Address.{address_text};
ghost use Rattle.zre_values.specs.Text.{id_text, quoted, quoted_pairs};
ghost use Rattle.zre_capture.specs.Heads.{head_text, head};
ghost use Rattle.zre_capture.specs.Reading.{fields_in, plain_with, settings_in, settings_with, settings_of};
ghost use Rattle.zre_capture.specs.declared.format.Format.TheVariants.{Second};

use crate::found;
use crate::headers::headers;
use crate::read::{first_field, one_part};
use crate::value::{address, id, number_within, short};
use std::alloc::Global;
use zre_values::{
    DAY, NAME_OCTETS, Octets, OutOfMemory, PeerId, Settings, push_address, push_decimal,
    push_quoted, push_quoted_pairs,
};

/// The line that a capture of format 1 begins with.
pub const HEAD: &[u8] = b"zre-capture 1\n";

// The front of a head of format 2: who the node is.
fn push_who(out: &mut Octets, settings: &Settings) -> Result<(), OutOfMemory>
    ensures { OnOk result (out.new ≡ out.old ++ (codes "zre-capture 2 " ++ (id_text settings.now.id ++ (32 ∷
        (quoted settings.now.name ++ (32 ∷ address_text settings.now.host)))))) }
{
    out.append(b"zre-capture 2 ")?;
    settings.id.push_to(out)?;
    out.push(b' ')?;
    push_quoted(out, settings.name.as_slice())?;
    out.push(b' ')?;
    push_address(out, settings.host)
}

fn push_number(out: &mut Octets, n: u64) -> Result<(), OutOfMemory>
    ensures { OnOk result (out.new ≡ out.old ++ (32 ∷ decimal n)) }
{
    out.push(b' ')?;
    push_decimal(out, n)
}

// The times of a node, after its port.
fn push_numbers(out: &mut Octets, settings: &Settings) -> Result<(), OutOfMemory>
    ensures { OnOk result (out.new ≡ out.old ++ (32 ∷ (decimal settings.now.port ++ (32 ∷
        (decimal settings.now.evasive ++ (32 ∷ decimal settings.now.expired)))))) }
{
    push_number(out, u64::from(settings.port))?;
    push_number(out, settings.evasive)?;
    push_number(out, settings.expired)
}

fn push_head_text(out: &mut Octets, settings: &Settings) -> Result<(), OutOfMemory>
    ensures { OnOk result (out.new ≡ out.old ++ head_text Second settings.now) }
{
    push_who(out, settings)?;
    push_numbers(out, settings)?;
    out.push(b' ')?;
    push_quoted_pairs(out, &settings.headers)
}

/// Appends the line that a capture of format 2 of a node with these settings begins with. After an error a front of it
/// may stand there.
pub fn push_head2(out: &mut Octets, settings: &Settings) -> Result<(), OutOfMemory>
    ensures { OnOk result (out.new ≡ out.old ++ head Second settings.now) }
{
    push_head_text(out, settings)?;
    out.push(b'\n')
}

/// The line that a capture of format 2 of a node with these settings begins with, with its line feed. It is read again
/// where the settings are valid.
pub fn write_head2(alloc: Global, settings: &Settings) -> Result<Octets, OutOfMemory>
    ensures { IfOk result (λ written. written ≡ head Second settings.now) }
{
    let mut written = Octets::new(alloc);
    let Ok(()) = push_head2(&mut written, settings) else {
        drop(written);
        return Err(OutOfMemory);
    };
    Ok(written)
}

// The fields of a head of format 2.
#[derive(Clone, Copy)]
struct HeadFields<'a> {
    magic: &'a [u8],
    number: &'a [u8],
    id: &'a [u8],
    name: &'a [u8],
    host: &'a [u8],
    port: &'a [u8],
    evasive: &'a [u8],
    expired: &'a [u8],
    headers: &'a [u8],
}

fn head_fields(text: &[u8]) -> Option<HeadFields<'_>>
    ensures { MatchOption result (settings_in (fields_in text.now) ≡ None)
        (λ h. fields_in text.now ≡ h.magic.now ∷ h.number.now ∷ h.id.now ∷ h.name.now ∷ h.host.now ∷ h.port.now
        ∷ h.evasive.now ∷ h.expired.now ∷ h.headers.now ∷ []) }
{
    let (magic, after_magic) = first_field(text)?;
    let (number, after_number) = first_field(after_magic)?;
    let (id, after_id) = first_field(after_number)?;
    let (name, after_name) = first_field(after_id)?;
    let (host, after_host) = first_field(after_name)?;
    let (port, after_port) = first_field(after_host)?;
    let (evasive, after_evasive) = first_field(after_port)?;
    let (expired, after_expired) = first_field(after_evasive)?;
    let headers = one_part(after_expired, b' ')?;
    Some(HeadFields {
        magic,
        number,
        id,
        name,
        host,
        port,
        evasive,
        expired,
        headers,
    })
}

/// The settings of a node but for its name and its headers.
#[derive(Clone, Copy)]
pub(crate) struct PlainSettings {
    pub id: PeerId,
    pub host: [u8; 4],
    pub port: u16,
    pub evasive: u64,
    pub expired: u64,
}

impl HeadFields<'_> {
    fn has_magic(&self) -> bool
        ensures { result ≡ (bytes_eq self.now.magic.now (codes "zre-capture")
            && bytes_eq self.now.number.now (codes "2")) }
    {
        self.magic == b"zre-capture".as_slice() && self.number == b"2".as_slice()
    }

    #[tactic(auto, unfolding(crate::specs::Reading::plain_with))]
    fn read_plain(&self) -> Option<PlainSettings>
        ensures { result ≡ plain_with self.now.id.now self.now.host.now self.now.port.now self.now.evasive.now
            self.now.expired.now }
    {
        let id = id(self.id)?;
        let host = address(self.host)?;
        let port = number_within(1, 65535, self.port)?;
        let evasive = number_within(1, DAY, self.evasive)?;
        let expired = number_within(evasive, DAY, self.expired)?;
        Some(PlainSettings {
            id,
            host,
            port: port as u16,
            evasive,
            expired,
        })
    }
}

// The settings, where the plain ones are there.
fn with_texts(
    alloc: Global,
    plain: PlainSettings,
    name_field: &[u8],
    headers_field: &[u8],
) -> Result<Option<Settings>, OutOfMemory>
    ensures { IfOk result (λ found. found ≡ settings_with plain name_field.now headers_field.now) }
{
    let name = found!(short(alloc, NAME_OCTETS, name_field)?);
    let headers = found!(headers(alloc, headers_field)?);
    let host = plain.host;
    Ok(Some(Settings {
        id: plain.id,
        name,
        headers,
        host,
        port: plain.port,
        evasive: plain.evasive,
        expired: plain.expired,
    }))
}

/// The settings that a line, without its line feed, says, if it is a head of format 2.
#[tactic(auto, unfolding(crate::specs::Reading::settings_in))]
pub(crate) fn settings(alloc: Global, text: &[u8]) -> Result<Option<Settings>, OutOfMemory>
    ensures { IfOk result (λ found. found ≡ settings_of text.now) }
{
    let fields = found!(head_fields(text));
    if !fields.has_magic() {
        return Ok(None);
    }
    let plain = found!(fields.read_plain());
    with_texts(alloc, plain, fields.name, fields.headers)
}
