//! What the words of this crate mean in the session table.

ghost use Rattle.std.specs.Prelude.{◌≡◌, None, IsFalse, IsTrue, ◌⊎◌};
ghost use Rattle.gx_session.specs.Table.{fresh_packet, row};
ghost use Rattle.gx_session.specs.declared.event.Next.TheVariants as nexts;
ghost use Rattle.gx_session.specs.declared.session.Phase.TheVariants as phases;
ghost use Rattle.gx_soup.specs.declared.packet.ClientPacket.{ClientPacket};
ghost use Rattle.gx_reception.specs.Openings.{is_idle};

/// Before a login an idle packet leaves a session as it is, and nothing follows; any other packet asks for a login, or ends
/// the session.
pub fn idle_packets_change_nothing()
    ensures idle { (p : ClientPacket) → IsTrue (is_idle p)
        → fresh_packet p ≡ row phases.Fresh None nexts.Idle }
    ensures other { (p : ClientPacket) → IsFalse (is_idle p)
        → (fresh_packet p ≡ row phases.Waiting None nexts.Login)
        ⊎ (fresh_packet p ≡ row phases.Done None nexts.Close) }
{}
