//! Laws of a world of one history and its replicas, over every list of events, and of every sound replica. Each is the
//! contract of a function that does nothing.

ghost use Rattle.std.specs.Prelude.{◌≡◌, ℕ, List, Bool, true, Contains, take, length};
ghost use Rattle.braid_ids.specs.Agents.{IsAgent};
ghost use Rattle.braid_change.specs.declared.change.Change.{Change};
ghost use Rattle.braid_change.specs.Updates.{UpdateView, IsUpdate};
ghost use Rattle.braid_graph.specs.Entries.{HoldsAll};
ghost use Rattle.braid_text.specs.Histories.{graph_of, SameGraph};
ghost use Rattle.braid_text.specs.declared.room.Room.{Room};
ghost use Rattle.braid_outbox.specs.declared.world.World.{World};
ghost use Rattle.braid_outbox.specs.declared.world.Side.{Side};
ghost use Rattle.braid_outbox.specs.declared.world.Posted.{Posted};
ghost use Rattle.braid_outbox.specs.declared.world.Event.{Event};
ghost use Rattle.braid_outbox.specs.Replicas.{ReplicaView, IsSound, frontier};
ghost use Rattle.braid_outbox.specs.Writes.{additions, is_written, updates_needed, write};
ghost use Rattle.braid_outbox.specs.Learns.{acked, learn};
ghost use Rattle.braid_outbox.specs.Worlds.{replica_of, kept_of, land_answer};
ghost use Rattle.braid_outbox.specs.Laws.{AreAgents, reached, IsPart, Keeps, IsAtEnd, IsTaken, CarriesWell, LosesNone};

pub use crate::lists::{ListAnswered, ListPosted, ListSide};
pub use crate::world::{Answered, Event, Posted, Reading, Side, World};

/// Whatever happens, every replica and every kept copy is sound, and what it has confirmed is a part of the history that
/// has its own parents.
pub fn sound()
    ensures replica { (limits : Room) (agents : List (List ℕ)) → AreAgents agents →
        (events : List Event) (s : Side) → Contains (reached limits agents events).sides s →
        Keeps (reached limits agents events).history (replica_of s) }
    ensures kept { (limits : Room) (agents : List (List ℕ)) → AreAgents agents → (events : List Event) (s : Side) →
        Contains (reached limits agents events).sides s → Keeps (reached limits agents events).history (kept_of s) }
{}

/// A replica whose open subscription has carried all that is sent has the history's graph. Where its confirmed updates
/// hold the frontier of the first entries of the history, it has these entries; where it holds the frontier of all, it
/// has the history's graph.
pub fn caught_up()
    ensures end { (limits : Room) (agents : List (List ℕ)) → AreAgents agents → (events : List Event) (s : Side) →
        Contains (reached limits agents events).sides s → IsAtEnd (reached limits agents events).history s.reading →
        SameGraph s.confirmed (reached limits agents events).history }
    ensures front { (limits : Room) (agents : List (List ℕ)) → AreAgents agents → (events : List Event) (s : Side) →
        Contains (reached limits agents events).sides s → (n : ℕ) →
        HoldsAll (graph_of s.confirmed) (frontier (take n (reached limits agents events).history)) →
        IsPart (take n (reached limits agents events).history) s.confirmed }
    ensures whole { (limits : Room) (agents : List (List ℕ)) → AreAgents agents → (events : List Event) (s : Side) →
        Contains (reached limits agents events).sides s → HoldsAll (graph_of s.confirmed) (frontier
        (reached limits agents events).history) → SameGraph s.confirmed (reached limits agents events).history }
{}

/// No PUT ever made is refused, but for want of room, and no update that a subscription carries, but by the replica's
/// own limits.
pub fn lands()
    ensures puts { (limits : Room) (agents : List (List ℕ)) → AreAgents agents → (events : List Event) (p : Posted) →
        Contains (reached limits agents events).puts p → (full : Bool) →
        IsTaken (land_answer full (reached limits agents events).history p.update) }
    ensures carried { (limits : Room) (agents : List (List ℕ)) → AreAgents agents →
        (events : List Event) (s : Side) → Contains (reached limits agents events).sides s →
        CarriesWell limits (reached limits agents events).history s s.reading }
{}

/// Whatever it is given to learn, to acknowledge or to write, a sound replica stays sound and loses no update.
pub fn stays_sound()
    ensures learn { (limits : Room) (r : ReplicaView) → IsSound r → (u : UpdateView) → IsUpdate u →
        IsSound (learn limits r u) × LosesNone r (learn limits r u) }
    ensures acked { (r : ReplicaView) → IsSound r → (v : List ℕ) → IsSound (acked v r) × LosesNone r (acked v r) }
    ensures write { (limits : Room) (r : ReplicaView) → IsAgent r.agent → IsSound r → (c : Change) →
        IsSound (write limits r c) × LosesNone r (write limits r c) }
{}

/// A write adds as many updates as are counted before the first of them: the pure merges, and the change.
pub fn counts_its_merges()
    ensures updates { (limits : Room) (r : ReplicaView) → IsAgent r.agent → IsSound r → (c : Change) →
        is_written limits r c ≡ true → length (additions r c) ≡ updates_needed r }
{}
