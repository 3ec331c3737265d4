//! The laws. Each function has no body: its clauses are theorems about the definitions.
ghost use Rattle.std.specs.Prelude.{◌≡◌, ℕ, List, Result};
ghost use Rattle.std.specs.List.{AllByRecursion};
ghost use Rattle.node_rules.specs.declared.state.NodeState.{NodeState};
ghost use Rattle.node_rules.specs.declared.event.Event.{Event};
ghost use Rattle.node_rules.specs.declared.reply.Reply.{Reply};
ghost use Rattle.node_rules.specs.declared.reply.StepFault.{StepFault};
ghost use Rattle.node_rules.specs.State.{Setting};
ghost use Rattle.node_rules.specs.Relation.{Steps};
ghost use Rattle.values_tables.specs.declared.plain.Tables.{Tables};
ghost use Rattle.roster.specs.Judged.{IsRoster};
ghost use Rattle.world_rules.specs.declared.event.WorldEvent.{WorldEvent};
ghost use Rattle.world_rules.specs.World.{World, new_world};
ghost use Rattle.world_rules.specs.Consequence.{Seen, Nothing};
ghost use Rattle.world_rules.specs.Run.{Step, Happens, Plays, IsOfKey};
ghost use Rattle.world_rules.specs.Noise.{IsNoise};
ghost use Rattle.world_rules.specs.Safety.{NothingOldIsServed, SiblingsAskNothing};
ghost use Rattle.world_rules.specs.Lineage.{HasLineage};
ghost use Rattle.world_rules.specs.Asked.{AnswersAsks};
ghost use Rattle.world_rules.specs.Provenance.{EachHasSource, EachHasAge};
ghost use Rattle.world_rules.specs.Apply.{apply, IsDone};

/// The safety of purges, for every roster and every list of events.
///
/// `served`: once a purge is reported done, no copy is served whose reading began before the purge
/// was issued. `siblings`: a request to a sibling begins nothing, and makes it send to nobody but
/// the requester. `lineage`: the invariant on which `served` rests holds at every place.
pub fn purges_are_safe()
    ensures served { (roster : Tables) (events : List WorldEvent) (steps : List Step) (w : World) →
        IsRoster roster → Plays roster 1 (new_world roster) events steps w →
        NothingOldIsServed steps }
    ensures siblings { (roster : Tables) (events : List WorldEvent) (steps : List Step)
        (w : World) → Plays roster 1 (new_world roster) events steps w →
        SiblingsAskNothing roster steps }
    ensures lineage { (roster : Tables) (events : List WorldEvent) (steps : List Step) (w : World) →
        IsRoster roster → Plays roster 1 (new_world roster) events steps w →
        HasLineage roster steps w }
{}

/// Where the content of served copies comes from.
///
/// `sources`: each copy that a member begins to serve has the status, fields and body of one
/// response for its key: an origin's, to the read that began at the copy's mark, or a foreign
/// cache's. `ages`: it is served with its age (RFC 9111, section 4.2.3).
pub fn copies_have_sources()
    ensures sources { (roster : Tables) (events : List WorldEvent) (steps : List Step) (w : World) →
        Plays roster 1 (new_world roster) events steps w → EachHasSource roster steps }
    ensures ages { (roster : Tables) (events : List WorldEvent) (steps : List Step) (w : World) →
        Plays roster 1 (new_world roster) events steps w → EachHasAge roster steps w }
{}

/// Each step of a node answers what was requested: to the request of its event, or to one that
/// waits, it serves a copy of that request's key with its age, or a bare status. A new request gets
/// a block that no other has which waits there.
pub fn nodes_answer_what_is_asked<T>()
    ensures { (g : Setting) (s : NodeState T) (e : Event T) (mark : T)
        (outcome : Result (Reply T) StepFault) (next : NodeState T) →
        Steps g s e mark outcome next → AnswersAsks s e outcome next }
{}

/// Octets of a stranger that spell no message change nothing, and nothing is seen of them.
pub fn noise_changes_nothing()
    ensures { (roster : Tables) (place : ℕ) (old : World) (event : WorldEvent) (seen : Seen)
        (new : World) → IsNoise roster event → Happens roster place old event seen new →
        (seen ≡ Nothing) × (new ≡ old) }
{}

/// What the function `apply` makes of an event may happen in the world.
pub fn applied_events_happen()
    ensures { (roster : Tables) (place : ℕ) (w : World) (event : WorldEvent) → IsOfKey event →
        IsDone roster place w event (apply roster place w event) }
{}

/// Every list of events has a run, if each purge in it is of a key.
pub fn each_list_is_played()
    ensures { (roster : Tables) (events : List WorldEvent) → AllByRecursion IsOfKey events →
        (steps : List Step) × (w : World) × Plays roster 1 (new_world roster) events steps w }
{}
