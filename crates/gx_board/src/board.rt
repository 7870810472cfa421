//! What follows a shared gate's records for a risk desk's page.

ghost use Rattle.std.specs.Prelude.{◌≡◌, ◌≤◌, length, IfOk, IfSome};
ghost use mathlib.Core.List.{IsPrefix};
ghost use Rattle.gx_history.specs.Verdicts.{IsLegal};
ghost use Rattle.gx_pass.specs.Views.{mine};
ghost use Rattle.gx_board.specs.{Replicas.IsReplica, Views.IsView};

use crate::replica::Replica;
use crate::view::BoardView;
use gx_access_gate::AccessGate;
use gx_door::Door;
use gx_policy::Policy;
use gx_records::{ShowsRecords, ShowsState};
use gx_units::{OutOfMemory, UserName};
use std::alloc::Global;
use std::marker::Model;
use std::sync::Wait;

/// A pass of a gate that threads share, and from the first look on a gate of the board's own, which has the first of the records
/// that the pass has met: views are made of that one, so that no figure is made under the shared gate's lock. Contracts see what
/// the pass has met.
///
/// It ends by `close`, and is never dropped.
pub struct Board<D: Door, G: AccessGate> {
    pass: D::Pass,
    replica: Option<Replica<G>>,
}

impl<D: Door, G: AccessGate> Model for Board<D, G> {
    ghost use Rattle.std.specs.Prelude.{IfSome};
    ghost use Rattle.gx_pass.specs.declared.view.LineView.{LineView};
    ghost use Rattle.gx_board.specs.Replicas.{IsReplica};

    ghost Value = { LineView };

    ghost view = { λ b. D.observed b.pass };

    ghost invariant = { λ b. IfSome b.replica (IsReplica D.policy (D.observed b.pass).front) };
}

impl<D: Door, G: ShowsRecords + ShowsState> Board<D, G> {
    /// A board that looks with this pass. The replica, if there is one yet, has the first of the records that it has met.
    pub fn new(pass: D::Pass, replica: Option<Replica<G>>) -> Board<D, G>
        requires replica { IfSome replica (IsReplica D.policy (D.observed pass).front) }
        ensures held { result ≡ D.observed pass }
    {
        Board { pass, replica }
    }

    /// The pass, to make steps with at the gate's door, and the replica, which goes on with it.
    pub fn into_parts(self) -> (D::Pass, Option<Replica<G>>)
        ensures held { D.observed result.0 ≡ self }
        ensures replica { IfSome result.1 (IsReplica D.policy self.front) }
    {
        let Board { pass, replica } = self;
        (pass, replica)
    }

    /// Follows some of the records that came since, if somebody has looked. Answers whether there may be more.
    pub fn follow<R: Wait>(self, rt: &R, door: &D, alloc: Global) -> (Board<D, G>, bool)
        ensures front { IsPrefix self.front result.0.front }
        ensures own { mine result.0 ≡ mine self }
    {
        let Board { pass, replica } = self;
        let Some(mut replica) = replica else {
            return (
                Board {
                    pass,
                    replica: None,
                },
                false,
            );
        };
        let (pass, found) = replica.follow(rt, door, alloc, pass);
        let board = Board {
            pass,
            replica: Some(replica),
        };
        (board, matches!(found, Ok(false)))
    }

    /// What the viewer is shown behind all records that the gate has when the last of them is followed: at least those that the
    /// pass had met, or was told of.
    ///
    /// # Errors
    ///
    /// `OutOfMemory` where memory was refused. What was followed by then stays so.
    pub fn view<R: Wait>(
        self,
        rt: &R,
        door: &D,
        policy: &Policy,
        alloc: Global,
        viewer: UserName,
    ) -> (Board<D, G>, Result<BoardView, OutOfMemory>)
        requires policy { policy.now ≡ D.policy }
        ensures front { IsPrefix self.front result.0.front }
        ensures own { mine result.0 ≡ mine self }
        ensures legal { IfOk result.1 (λ _. IsLegal D.policy result.0.front) }
        ensures view { IfOk result.1 (IsView D.policy result.0.front viewer) }
    {
        let Board { pass, replica } = self;
        match replica {
            Some(replica) => view_behind(rt, door, alloc, pass, replica, viewer),
            None => match Replica::open(alloc, policy) {
                Ok(replica) => view_behind(rt, door, alloc, pass, replica, viewer),
                Err(refused) => (Board::new(pass, None), Err(refused)),
            },
        }
    }

    /// How many records there are: at least as many as the pass has met.
    pub fn length(&mut self, door: &D) -> u64
        ensures front { self.new.front ≡ self.old.front }
        ensures own { mine self.new ≡ mine self.old }
        ensures met { length self.new.front ≤ result }
    {
        door.length(&mut self.pass)
    }

    /// Lets it go.
    pub fn close(self) {
        let Board { pass: _, replica } = self;
        if let Some(replica) = replica {
            replica.close();
        }
    }
}

/// What the viewer is shown once the replica has all records that the pass has met.
fn view_behind<D: Door, G: ShowsRecords + ShowsState, R: Wait>(
    rt: &R,
    door: &D,
    alloc: Global,
    pass: D::Pass,
    replica: Replica<G>,
    viewer: UserName,
) -> (Board<D, G>, Result<BoardView, OutOfMemory>)
    requires replica { IsReplica D.policy (D.observed pass).front replica }
    ensures front { IsPrefix (D.observed pass).front result.0.front }
    ensures own { mine result.0 ≡ mine (D.observed pass) }
    ensures legal { IfOk result.1 (λ _. IsLegal D.policy result.0.front) }
    ensures view { IfOk result.1 (IsView D.policy result.0.front viewer) }
{
    let mut pass = pass;
    let mut replica = replica;
    for _ in rt.forever() {
        let (back, found) = replica.follow(rt, door, alloc, pass);
        pass = back;
        match found {
            Ok(true) => {
                let seen = replica.view(alloc, viewer);
                return (Board::new(pass, Some(replica)), seen);
            }
            Ok(false) => {}
            Err(refused) => return (Board::new(pass, Some(replica)), Err(refused)),
        }
    }
    unreachable!()
}
