//! Laws of shared tables. The functions do nothing: what they ensure is for proofs.

ghost use Rattle.std.specs.Prelude.{◌≡◌, ◌↔◌, ℕ, ◌++◌, List, Some, map, filter_map, All};
ghost use Rattle.std.specs.List.Sorted.{IsStrictlySortedBy};
ghost use Rattle.zre_values.specs.declared.peer_id.PeerId.{PeerId};
ghost use Rattle.zre_shared.specs.Replicas.{with_frames};
ghost use Rattle.zre_shared.specs.Tables.{by_key, table, IsTableOf, HaveSameMembers};
ghost use Rattle.zre_shared.specs.Writes.{IsWrite, write_of, write_text};
ghost use Rattle.zre_shared.specs.declared.write.Write.{Write};

/// A write is read from its frame.
pub fn writes_are_read()
    ensures { (w : Write) → IsWrite w → write_of (write_text w) ≡ Some w }
{}

/// A frame that is read as a write is the one that this write has.
pub fn frames_are_written()
    ensures { (frame : List ℕ) (w : Write) → write_of frame ≡ Some w → IsWrite w × (write_text w ≡ frame) }
{}

/// Some writes have one table: for each key the greatest of its writes, keys rising.
pub fn there_is_one_table()
    ensures { (ws t : List Write) → IsTableOf ws t ↔ (t ≡ table ws) }
{}

/// Two lists of writes with the same members have the same table, in whatever order and however often each stands in
/// them.
pub fn tables_are_of_members()
    ensures { (xs ys : List Write) → HaveSameMembers xs ys → table xs ≡ table ys }
{}

/// A list of writes whose keys rise is its own table, as what a replica holds.
pub fn rising_writes_are_a_table()
    ensures { (ws : List Write) → IsStrictlySortedBy by_key ws → table ws ≡ ws }
{}

/// A table stands for the writes that it is of, whatever comes to them.
pub fn tables_stand_for_their_writes()
    ensures { (xs ys : List Write) → table (table xs ++ ys) ≡ table (xs ++ ys) }
{}

/// Whoever holds a table and takes some frames, one after the other, holds the table of what it held and of the writes
/// among them.
pub fn frames_are_taken_together()
    ensures { (id : PeerId) (ws : List Write) (frames : List (List ℕ))
        → with_frames (record { id = id; writes = table ws }) frames
        ≡ record { id = id; writes = table (ws ++ filter_map write_of frames) } }
{}

/// Who takes the frame of each write of another's table has the table of both.
pub fn a_welcome_joins_tables()
    ensures { (id : PeerId) (xs ys : List Write) → All IsWrite ys
        → with_frames (record { id = id; writes = table xs }) (map write_text (table ys))
        ≡ record { id = id; writes = table (xs ++ ys) } }
{}
