//! Addresses and endpoints in their texts.

ghost use Rattle.std.specs.Prelude.{◌≡◌, ℕ, ◌<◌, ◌^◌, ◌==◌, ◌∷◌, ◌++◌, [], List, false, codes, decimal};
ghost use Rattle.std.specs.Prelude.{IfOk, IfSome, IsSomeAnd, OnOk, Some, position};
ghost use Rattle.std.specs.List.{list_any};
ghost use Rattle.zre_values.specs.Address.{address_text, IsAddress};

use crate::{Octets, OutOfMemory, push_decimal, read_decimal};
use std::alloc::Global;

/// The address and the port of a node, as its HELLO names them.
#[derive(Clone, Copy, Debug, PartialEq, Eq)]
pub struct Endpoint {
    /// The IPv4 address, its first octet first.
    pub addr: [u8; 4],
    /// The TCP port of the mailbox. An endpoint that is read has one from 1 on.
    pub port: u16,
}

fn place_of(text: &[u8], octet: u8) -> Option<usize>
    ensures { result ≡ position (λ b. b == octet) text.now }
{
    text.iter().position(|b| *b == octet)
}

// What stands before and after the first of these octets.
fn split_once(text: &[u8], octet: u8) -> Option<(&[u8], &[u8])>
    ensures value { IfSome result (λ parts. text.now ≡ parts.0.now ++ (octet ∷ parts.1.now)) }
    ensures back { (x y : List ℕ) → list_any (λ b. b == octet) x ≡ false → text.now ≡ x ++ (octet ∷ y)
        → IsSomeAnd result (λ parts. (parts.0.now ≡ x) × (parts.1.now ≡ y)) }
{
    let i = place_of(text, octet)?;
    let (front, rest) = text.split_at(i);
    let (_, later) = rest.split_at(1);
    Some((front, later))
}

fn read_octet(text: &[u8]) -> Option<u8>
    ensures value { IfSome result (λ n. text.now ≡ decimal n) }
    ensures back { (n : ℕ) → n < 2 ^ 8 → text.now ≡ decimal n → result ≡ Some n }
{
    let n = read_decimal(text)?;
    if n <= u64::from(u8::MAX) {
        Some(n as u8)
    } else {
        None
    }
}

// A number before the first dot, and what stands after that.
fn octet_before_dot(text: &[u8]) -> Option<(u8, &[u8])>
    ensures value { IfSome result (λ x. text.now ≡ decimal x.0 ++ (46 ∷ x.1.now)) }
    ensures back { (n : ℕ) (y : List ℕ) → n < 2 ^ 8 → text.now ≡ decimal n ++ (46 ∷ y)
        → IsSomeAnd result (λ x. (x.0 ≡ n) × (x.1.now ≡ y)) }
{
    let Some((front, rest)) = split_once(text, b'.') else {
        return None;
    };
    let n = read_octet(front)?;
    Some((n, rest))
}

/// Reads an address `a.b.c.d`: four numbers from 0 to 255 in decimal, without leading zeros.
pub fn read_address(text: &[u8]) -> Option<[u8; 4]>
    ensures value { IfSome result (λ addr. text.now ≡ address_text addr) }
    ensures back { (addr : List ℕ) → IsAddress addr → text.now ≡ address_text addr
        → IsSomeAnd result (λ read. read ≡ addr) }
{
    let Some((a, rest)) = octet_before_dot(text) else {
        return None;
    };
    let Some((b, rest)) = octet_before_dot(rest) else {
        return None;
    };
    let Some((c, rest)) = octet_before_dot(rest) else {
        return None;
    };
    let d = read_octet(rest)?;
    Some([a, b, c, d])
}

/// Appends an address `a.b.c.d`. After an error a front of it may stand there.
#[tactic(auto)]
pub fn push_address(out: &mut Octets, addr: [u8; 4]) -> Result<(), OutOfMemory>
    ensures { OnOk result (out.new ≡ out.old ++ address_text addr) }
{
    let [a, b, c, d] = addr;
    push_decimal(out, a as u64)?;
    out.push(b'.')?;
    push_decimal(out, b as u64)?;
    out.push(b'.')?;
    push_decimal(out, c as u64)?;
    out.push(b'.')?;
    push_decimal(out, d as u64)
}

fn read_port(text: &[u8]) -> Option<u16>
    ensures value { IfSome result (λ n. (text.now ≡ decimal n) × (0 < n)) }
    ensures back { (n : ℕ) → 0 < n → n < 2 ^ 16 → text.now ≡ decimal n → result ≡ Some n }
{
    let n = read_decimal(text)?;
    if n > u64::from(u16::MAX) {
        return None;
    }
    let port = n as u16;
    if port == 0 { None } else { Some(port) }
}

fn after_scheme(text: &[u8]) -> Option<&[u8]>
    ensures value { IfSome result (λ rest. text.now ≡ codes "tcp://" ++ rest.now) }
    ensures back { (y : List ℕ) → text.now ≡ codes "tcp://" ++ y → IsSomeAnd result (λ rest. rest.now ≡ y) }
{
    text.strip_prefix(b"tcp://")
}

impl Endpoint {
    ghost use Rattle.zre_values.specs.Endpoint.{endpoint_in, endpoint_text, IsEndpoint};

    fn at(addr: [u8; 4], port: u16) -> Endpoint
        requires { 0 < port }
        ensures value { (result.addr ≡ addr) × (result.port ≡ port) }
        ensures fits { IsEndpoint result }
    {
        Endpoint { addr, port }
    }

    /// Reads `tcp://a.b.c.d:port`: the numbers in decimal without leading zeros, the port from 1 to 65,535.
    pub fn read(text: &[u8]) -> Option<Endpoint>
        ensures value { IfSome result (λ endpoint. (text.now ≡ endpoint_text endpoint) × (0 < endpoint.port)) }
        ensures back { (endpoint : Endpoint) → IsEndpoint endpoint → text.now ≡ endpoint_text endpoint
            → result ≡ Some endpoint }
        ensures read { result ≡ endpoint_in text.now }
    {
        let rest = after_scheme(text)?;
        let Some((addr, port)) = split_once(rest, b':') else {
            return None;
        };
        let addr = read_address(addr)?;
        let port = read_port(port)?;
        Some(Endpoint::at(addr, port))
    }

    fn push_to(self, out: &mut Octets) -> Result<(), OutOfMemory>
        ensures { OnOk result (out.new ≡ out.old ++ endpoint_text self) }
    {
        out.append(b"tcp://")?;
        push_address(out, self.addr)?;
        out.push(b':')?;
        push_decimal(out, u64::from(self.port))
    }

    /// The text that [`Endpoint::read`] reads.
    pub fn write(self, alloc: Global) -> Result<Octets, OutOfMemory>
        requires { 0 < self.port }
        ensures value { IfOk result (λ text. text ≡ endpoint_text self) }
        // So it is read back from this text.
        ensures again { IsEndpoint self }
    {
        let mut text = Octets::new(alloc);
        self.push_to(&mut text)?;
        Ok(text)
    }
}
