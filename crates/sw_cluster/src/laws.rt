//! Laws of what commands leave and show: of what was answered, and of commands that follow each other. Each function does nothing,
//! and its clause is the law.

ghost use Rattle.sw_cluster.specs.Answered.{AnswersStand, SessionAnswersStand};
ghost use Rattle.sw_cluster.specs.Composing.{ObjectsCompose, RunsLead, ServingLeads, TablesCompose};
ghost use Rattle.sw_cluster.specs.Lasting.{ServingLeavesSound, SessionsLeaveSound};
ghost use Rattle.sw_cluster.specs.Shown.{ServingShowsExactly, SessionShowsExactly};
ghost use Rattle.sw_core.specs.Worlds.{keeper_seen};
ghost use Rattle.sw_ring.specs.declared.ring.Ring.{Ring};

use sw_stores::Stores;

/// Whatever a client was told of a write, in a session or on a connection that was served, is borne out by what rests in the stores at the end, whatever
/// came, failed or was restarted in between: where it was told that its write was made, the files that rest have it, or the tables; and where it was told a
/// 409, they are as late as the time that it shows. This holds of each lock that told its contents as the command began.
pub fn answers_stand<S: Stores>()
    ensures sessions { (ring : Ring) → SessionAnswersStand S.V.tells S.V.holds S.V.faults (keeper_seen S.K.tells S.K.holds S.K.faults) ring S.first }
    ensures serving { (ring : Ring) → AnswersStand S.V.tells S.V.holds S.V.faults (keeper_seen S.K.tells S.K.holds S.K.faults) ring S.first }
{
    sw_object_server::laws::asks_for_one();
    sw_container_server::laws::asks_for_one();
}

/// Whatever a client was shown that lists a container, in a session or on a connection that was served, is exactly what it asks for of the rows of the live
/// objects, where no record of the container was pending: split or not, and whatever failed, was lost, came again or was restarted before. This holds where the
/// nodes began sound with an account of what was written before, as they are with none where the stores held nothing, and clients had devices take over only
/// what some client had written. The nodes are sound again behind each reply, with what came to the account since.
pub fn listings_are_exact<S: Stores>()
    ensures sessions { (ring : Ring) → SessionShowsExactly S.V.tells S.V.holds S.V.faults (keeper_seen S.K.tells S.K.holds S.K.faults) ring S.first }
    ensures serving { (ring : Ring) → ServingShowsExactly S.V.tells S.V.holds S.V.faults (keeper_seen S.K.tells S.K.holds S.K.faults) ring S.first }
{}

/// A session, and connections that are served, lead from what rested in the stores to what rests then.
pub fn commands_lead<S: Stores>()
    ensures sessions { (ring : Ring) → RunsLead S.V.tells S.V.holds S.V.faults (keeper_seen S.K.tells S.K.holds S.K.faults) S.first ring }
    ensures serving { (ring : Ring) → ServingLeads S.V.tells S.V.holds S.V.faults (keeper_seen S.K.tells S.K.holds S.K.faults) S.first ring }
{}

/// What two commands come to, one after the other, is what one comes to that got the writes of both, of each hash whose lock told its contents at first; and of
/// each container whose lock did the second begins with what the first left.
pub fn commands_compose<S: Stores>()
    ensures objects { (ring : Ring) → ObjectsCompose S.V.tells S.V.holds S.V.faults (keeper_seen S.K.tells S.K.holds S.K.faults) S.first ring }
    ensures tables { (ring : Ring) → TablesCompose S.V.tells S.V.holds S.V.faults (keeper_seen S.K.tells S.K.holds S.K.faults) S.first ring }
{}

/// What a command leaves is sound for the next one, with the account of what was written before both: so, from command to command, what clients are shown that
/// lists a container stays exact, however often a node is started again. Records that wait are still there, and so is all that replicas were told.
pub fn commands_stay_sound<S: Stores>()
    ensures sessions { (ring : Ring) → SessionsLeaveSound S.V.tells S.V.holds S.V.faults (keeper_seen S.K.tells S.K.holds S.K.faults) S.first ring }
    ensures serving { (ring : Ring) → ServingLeavesSound S.V.tells S.V.holds S.V.faults (keeper_seen S.K.tells S.K.holds S.K.faults) S.first ring }
{}
