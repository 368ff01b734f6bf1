//! The header of a frame: its flags and its size (RFC 23, framing).

ghost use Rattle.std.specs.Prelude.{◌≡◌, ◌≤◌, length};
ghost use Rattle.zre_zmtp.specs.Frame.{is_message as message_test, is_long as long_test, has_more as more_test};
ghost use Rattle.zre_zmtp.specs.Frame.{header_len as len_of_header, size, header_of};

/// What a header says.
#[derive(Clone, Copy, Debug, PartialEq, Eq)]
pub struct Header {
    /// The flags octet: 0 to 3 of a message, 4 and 6 of a command.
    pub flags: u8,
    /// How many octets the body has.
    pub size: u64,
}

/// Whether these are the flags of a message frame.
pub fn is_message(flags: u8) -> bool
    ensures { result ≡ message_test flags }
{
    flags < 4
}

/// Whether these are the flags of a frame that another of its message follows.
pub fn has_more(flags: u8) -> bool
    ensures { result ≡ more_test flags }
{
    flags == 1 || flags == 3
}

fn is_long(flags: u8) -> bool
    ensures { result ≡ long_test flags }
{
    flags == 2 || flags == 3 || flags == 6
}

/// How many octets the flags and the size field have.
pub fn header_len(octets: &[u8]) -> usize
    requires { 1 ≤ length octets.now }
    ensures { result ≡ len_of_header octets.now }
{
    if is_long(octets[0]) { 9 } else { 2 }
}

// What a header with a long size says, where all of it is there.
#[inline(never)]
fn read_long(octets: &[u8]) -> Option<Header>
    requires some { 1 ≤ length octets.now }
    requires long { len_of_header octets.now ≡ 9 }
    ensures { result ≡ header_of octets.now }
{
    if octets.len() < 9 {
        return None;
    }
    Some(Header {
        flags: octets[0],
        size: u64::from_be_bytes([
            octets[1], octets[2], octets[3], octets[4], octets[5], octets[6], octets[7], octets[8],
        ]),
    })
}

/// What the header at the front of some octets says, where all of it is there.
#[inline(always)]
pub fn read_header(octets: &[u8]) -> Option<Header>
    ensures { result ≡ header_of octets.now }
{
    if octets.len() < 2 {
        return None;
    }
    let flags = octets[0];
    if is_long(flags) {
        return read_long(octets);
    }
    let size = u64::from(octets[1]);
    Some(Header { flags, size })
}
