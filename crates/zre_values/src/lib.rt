//! The small values of a ZRE node: octets and lists of them, the identity of a peer, the settings of a node, the texts
//! in which they are printed, and the limits of this node.
#![tactic(auto)]

mod decimals;
mod endpoint;
mod few_octets;
mod frames;
pub mod limits;
mod list;
mod long;
mod macros;
mod memory;
mod octets;
mod pairs;
mod peer_id;
mod plain_id;
mod quoted_table;
mod quoting;
mod settings;
mod texts;
mod unquoting;
mod words;

pub use decimals::read_decimal;
pub use endpoint::{Endpoint, push_address, read_address};
pub use few_octets::FewOctets;
pub use frames::Frames;
pub use list::{Keys, List};
pub use memory::OutOfMemory;
pub use octets::Octets;
pub use pairs::Pairs;
pub use peer_id::PeerId;
pub use quoting::{
    push_field, push_quoted, push_quoted_frames, push_quoted_list, push_quoted_pairs, quote,
};
pub use settings::{DAY, NAME_OCTETS, Settings, VALUE_OCTETS};
pub use texts::push_decimal;
pub use unquoting::{is_quoted, octets_are_quoted_once, unquote};
pub use words::is_word;
