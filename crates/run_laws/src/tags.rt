//! The law of tags.
ghost use Rattle.std.specs.Prelude.{◌≡◌, Result};
ghost use Rattle.node_rules.specs.declared.state.NodeState.{NodeState};
ghost use Rattle.node_rules.specs.declared.event.Event.{Event};
ghost use Rattle.node_rules.specs.declared.reply.Reply.{Reply};
ghost use Rattle.node_rules.specs.declared.reply.StepFault.{StepFault};
ghost use Rattle.node_rules.specs.State.{Setting};
ghost use Rattle.node_rules.specs.Relation.{Steps};
ghost use Rattle.node_rules.specs.Tags.{retag_state, retag_event};
ghost use Rattle.run_laws.specs.Tagged.{ComesOfStep};

/// A step that a node takes with other tags is one that it takes with its own: the outcome and the
/// next state are the same, but for the tags.
pub fn steps_of_other_tags_are_steps<T, U>()
    ensures { (f : T → U) (g : Setting) (s : NodeState T) (e : Event T) (mark : T)
        (outcome : Result (Reply U) StepFault) (next : NodeState U) →
        Steps g (retag_state f s) (retag_event f e) (f mark) outcome next →
        ComesOfStep f g s e mark outcome next }
{}
