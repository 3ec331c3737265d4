//! A law of the definition of a step. Its function does nothing: its contract states the law.
ghost use Rattle.std.specs.Prelude.{Ok};
ghost use Rattle.node_rules.specs.declared.state.NodeState.{NodeState};
ghost use Rattle.node_rules.specs.declared.event.Event.{Event};
ghost use Rattle.node_rules.specs.declared.reply.Reply.{Reply};
ghost use Rattle.node_rules.specs.State.{Setting};
ghost use Rattle.node_rules.specs.Relation.{Steps};
ghost use Rattle.node_bytes.specs.Stepping.{AnswersAsk};

/// A request is served at once, and the step does nothing else; or it waits for what the step
/// begins.
pub fn asks_are_answered<T>()
    ensures { (g : Setting) (s : NodeState T) (e : Event T) (mark : T) (reply : Reply T)
        (next : NodeState T) →
        Steps g s e mark (Ok reply) next → AnswersAsk e reply }
{}
