//! A member of a shared table that writes, and tells another what it has.

use std::test::Fail;
use zre_outside::Command;
use zre_shared::{Commands, Replica};
use zre_values::PeerId;

const ANN: PeerId = PeerId([0, 1, 2, 3, 4, 5, 6, 7, 8, 9, 10, 11, 12, 13, 14, 15]);

const ME: PeerId = PeerId([
    255, 238, 221, 204, 187, 170, 153, 136, 119, 102, 85, 68, 51, 34, 17, 0,
]);

fn is_one_whisper(commands: &Commands, to: PeerId, frame: &[u8]) -> bool {
    let [Command::Whisper { peer, content }] = commands.as_slice() else {
        return false;
    };
    *peer == to && content.len() == 1 && content.as_slice()[0].as_slice() == frame
}

#[test]
fn a_write_is_one_more_than_what_it_replaces(rt: HostRuntime) -> Result<(), Fail> {
    let mut replica = Replica::new(rt.alloc(), ANN);
    assert!(rt; replica.take(b"zre-set 2 FFEEDDCCBBAA99887766554433221100 k a")?);
    let frame = replica.set(b"k", b"z")?;
    assert!(rt; frame.as_slice() == b"zre-set 3 000102030405060708090A0B0C0D0E0F k z".as_slice());
    let commands = replica.welcome(ME)?;
    assert!(rt; is_one_whisper(&commands, ME, frame.as_slice()));
    assert!(rt; replica.len() == 1);
    assert!(rt; replica.get(0).count == 3);
    Ok(())
}
