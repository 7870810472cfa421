//! What holds of the packets of any text, as functions that do nothing. Their lemmas stand in `proofs/Laws.antt`,
//! under the same names, for proofs of the crates above.

ghost use Rattle.std.specs.Prelude.{◌≡◌, ℕ, ◌<◌, List, ◌++◌, length, is_some, IsTrue, slice_index};
ghost use Rattle.gx_soup.specs.{declared.packet.ClientPacket.ClientPacket, Standard.longest_packet, Packets.{packets_of, with_packet}, Writing.{client_bytes, IsPacket}};

/// An encoded client's packet is read back as itself, whatever follows it.
pub fn read_back()
    ensures { (packet : ClientPacket) (rest : List ℕ) → IsPacket packet
        → packets_of (client_bytes packet ++ rest) ≡ with_packet packet (packets_of rest) }
{}

/// Nothing that follows a fault changes what was told.
pub fn nothing_after_fault()
    ensures { (bytes more : List ℕ) → IsTrue (is_some (packets_of bytes).fault)
        → packets_of (bytes ++ more) ≡ packets_of bytes }
{}

/// A text that goes on has its packets first.
pub fn packets_grow()
    ensures { (bytes more : List ℕ) → (given : List ClientPacket)
        × ((packets_of (bytes ++ more)).packets ≡ (packets_of bytes).packets ++ given) }
{}

/// Less than the longest packet is left over: at most 65,536 bytes.
pub fn held_back()
    ensures { (bytes : List ℕ) → ((i : ℕ) → slice_index bytes i < 256)
        → length (packets_of bytes).rest < longest_packet }
{}
