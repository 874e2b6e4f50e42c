// Packets: frames that an epoch is made of. What is looked at in a frame to tell its epoch stands here and in no other crate: which types,
// which key, which numbers. Read specs/Packet.antt.
#![tactic(auto)]

mod packet;

pub use packet::{Key, Packet, numbered, read_packet, same_key};
