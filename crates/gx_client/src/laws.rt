//! What holds of all messages, of all packets and of all sessions, as functions that do nothing.

ghost use Rattle.std.specs.{Prelude.{◌≡◌, ℕ, ◌+◌, ◌<◌, List, [], ◌∷◌, ◌++◌, length, is_some, IsTrue, IsFalse, slice_index}, List.list_any};
ghost use Rattle.gx_units.specs.declared.names.SessionName.{SessionName};
ghost use Rattle.gx_soup.specs.{declared.packet.{ClientPacket.TheVariants.Data, ServerPacket.{ServerPacket, TheVariants.{Accepted, Sequenced}}}, Login.greatest, Packets.{packets_of, with_packet}, Standard.{debug, longest_packet, unsequenced_data}, Writing.{framed_packet, server_bytes}};
ghost use Rattle.gx_ouch.specs.{declared.inbound.Inbound.Inbound, Writing.outbound_bytes};
ghost use Rattle.gx_desk.specs.{declared.Command.Command, Writing.{answer_bytes, drop_copy_bytes}};
ghost use Rattle.gx_client.specs.{Messages.{IsOutbound, IsAnswer, IsDropCopy, AreToldApart, HaveNoneInCommon}, Sending.{CarriesCommand, CarriesInbound}, ServerPackets.{server_packets_of, packets_behind, IsServerPacket}, Session.{is_end, reports_in, stage_of, heard_after}, declared.heard.Stage.TheVariants.Over};
ghost use Rattle.gx_client.specs.declared.heard.Heard.TheVariants as hears;

/// No two messages of a kind have the same bytes, nor has one message at two moments.
pub fn messages_are_told_apart()
    ensures outbound { AreToldApart IsOutbound outbound_bytes }
    ensures answer { AreToldApart IsAnswer answer_bytes }
    ensures drop_copy { AreToldApart IsDropCopy drop_copy_bytes }
{}

/// No bytes are messages of two kinds. An Executed and a drop copy share their type: their lengths tell them apart.
pub fn kinds_are_told_apart()
    ensures answer { HaveNoneInCommon IsOutbound outbound_bytes IsAnswer answer_bytes }
    ensures drop_copy { HaveNoneInCommon IsOutbound outbound_bytes IsDropCopy drop_copy_bytes }
    ensures officers { HaveNoneInCommon IsAnswer answer_bytes IsDropCopy drop_copy_bytes }
{}

/// The gate hears what is sent: one packet, whatever follows it, whose message is read as this command or order.
pub fn what_is_sent_is_heard()
    ensures command { (bytes rest : List ℕ) (command : Command)
        → (c : CarriesCommand bytes command)
        → packets_of (bytes ++ rest) ≡ with_packet (Data c.message) (packets_of rest) }
    ensures order { (bytes rest : List ℕ) (order : Inbound) → (c : CarriesInbound bytes order)
        → packets_of (bytes ++ rest) ≡ with_packet (Data c.message) (packets_of rest) }
{}

/// A server's packet is read back as itself, whatever follows it.
pub fn packets_are_read_back()
    ensures { (packet : ServerPacket) (rest : List ℕ) → IsServerPacket packet
        → server_packets_of (server_bytes packet ++ rest)
        ≡ packets_behind (packet ∷ []) (server_packets_of rest) }
{}

/// Debug and Unsequenced Data of a server are passed over.
pub fn others_are_passed_over()
    ensures debug { (payload rest : List ℕ) →
        server_packets_of (framed_packet debug payload ++ rest) ≡ server_packets_of rest }
    ensures unsequenced { (payload rest : List ℕ) →
        server_packets_of (framed_packet unsequenced_data payload ++ rest) ≡ server_packets_of rest }
{}

/// Nothing that follows a fault changes what was told.
pub fn nothing_follows_a_fault()
    ensures { (bytes more : List ℕ) → IsTrue (is_some (server_packets_of bytes).fault)
        → server_packets_of (bytes ++ more) ≡ server_packets_of bytes }
{}

/// A text that goes on has its packets first.
pub fn packets_grow()
    ensures { (bytes more : List ℕ) → (given : List ServerPacket)
        × ((server_packets_of (bytes ++ more)).packets
        ≡ (server_packets_of bytes).packets ++ given) }
{}

/// Less than the longest packet is left over: at most 65,536 bytes.
pub fn little_is_held_back()
    ensures { (bytes : List ℕ) → ((i : ℕ) → slice_index bytes i < 256)
        → length (server_packets_of bytes).rest < longest_packet }
{}

/// Behind a Login Accepted that tells the number `first`, the report behind so many others has the number that comes so
/// many after it, if it is not past those of 64 bits.
pub fn reports_are_numbered()
    ensures { (name : SessionName) (first wanted : ℕ)
        (packets : List ServerPacket) (payload : List ℕ)
        → IsFalse (list_any is_end packets) → first + reports_in packets < greatest
        → heard_after wanted (Accepted name first ∷ packets) (Sequenced payload)
        ≡ hears.Report (first + reports_in packets) }
{}

/// A session that is over hears nothing that it expects, and stays over.
pub fn over_is_over()
    ensures told { (wanted : ℕ) (packets : List ServerPacket) (packet : ServerPacket)
        → stage_of packets ≡ Over → heard_after wanted packets packet ≡ hears.Unexpected }
    ensures stays { (packets more : List ServerPacket)
        → stage_of packets ≡ Over → stage_of (packets ++ more) ≡ Over }
{}
