//! Laws of the definition. Each function does nothing: its contract states the law.
ghost use Rattle.std.specs.Prelude.{◌≡◌, ◌≤◌, ◌<◌, ℕ, List, [], ◌∷◌, length, Result, Some, None};
ghost use Rattle.std.specs.Prelude.{true, false};
ghost use Rattle.std.specs.List.{AllByRecursion};
ghost use Rattle.object_store.specs.declared.copy.WebCopy.{WebCopy};
ghost use Rattle.object_store.specs.Listed.{without_all_below};
ghost use Rattle.floor_rules.specs.Floors.{floor};
ghost use Rattle.node_rules.specs.declared.state.NodeState.{NodeState};
ghost use Rattle.node_rules.specs.declared.event.Event.{Event};
ghost use Rattle.node_rules.specs.declared.reply.Reply.{Reply};
ghost use Rattle.node_rules.specs.declared.reply.StepFault.{StepFault};
ghost use Rattle.values_plain.specs.declared.address.Address.{Address};
ghost use Rattle.icp_wire.specs.declared.message.Icp.{Icp};
ghost use Rattle.icp_wire.specs.declared.message.IcpOp.TheVariants as ops;
ghost use Rattle.htcp_wire.specs.declared.message.Htcp.{Htcp};
ghost use Rattle.htcp_wire.specs.declared.message.Specifier.{Specifier};
ghost use Rattle.htcp_wire.specs.declared.message.Content.TheVariants as content;
ghost use Rattle.htcp_wire.specs.Grammar.{tst, not_allowed};
ghost use Rattle.http_messages.specs.declared.ask.Ask.{Ask};
ghost use Rattle.node_rules.specs.declared.message.Message.TheVariants as message;
ghost use Rattle.node_rules.specs.declared.event.Event.TheVariants as event;
ghost use Rattle.node_rules.specs.declared.reply.Served.TheVariants.{Status};
ghost use Rattle.node_rules.specs.Messages.{icp, to, overall};
ghost use Rattle.node_rules.specs.State.{Setting, replies, serving, sending, is_outside};
ghost use Rattle.node_rules.specs.Asks.{IsBlock};
ghost use Rattle.node_rules.specs.Serials.{Ascend, KeepsFetch};
ghost use Rattle.node_rules.specs.Step.{step};
ghost use Rattle.node_rules.specs.Relation.{Steps};
ghost use Rattle.node_rules.specs.Questions.{is_from_sibling, BeginsNothing};
ghost use Rattle.node_rules.specs.Effect.{copy_served};
ghost use Rattle.node_rules.specs.Lawful.{Lawful, OutsideServesNothing};
ghost use Rattle.node_rules.specs.Tags.{retag_state, retag_event, retag_outcome, retag_stepped};
ghost use Rattle.node_rules.specs.Good.{AllAbove, IsAbove, AreStored, HasFreeBlock};

/// What the function `step` gives is a step by the relation `Steps`.
pub fn the_function_is_a_step<T>()
    ensures { (g : Setting) (s : NodeState T) (e : Event T) (mark : T) →
        Steps g s e mark (step g s e mark).outcome (step g s e mark).state }
{}

/// A base of 0 drops no copies: a purge whose raise makes no base keeps all copies but the key's.
pub fn a_base_of_0_drops_no_copies<T>()
    ensures { (copies : List (WebCopy T)) → without_all_below 0 copies ≡ copies }
{}

/// The function never closes a node. Only a failed allocation or a floor store that fails does.
pub fn the_function_closes_no_node<T>()
    ensures { (g : Setting) (s : NodeState T) (e : Event T) (mark : T) →
        (step g s e mark).state.closed ≡ s.closed }
{}

/// No step lowers a floor.
pub fn floors_never_fall<T>()
    ensures { (g : Setting) (s : NodeState T) (e : Event T) (mark : T)
        (outcome : Result (Reply T) StepFault) (next : NodeState T) (key : List ℕ) →
        Steps g s e mark outcome next → floor s.floors key ≤ floor next.floors key }
{}

/// No step serves a copy below the floor of its key (`served`). If no copy is held below its floor,
/// a step that leaves the node open leaves none below it (`stored`).
pub fn copies_stay_above_their_floors<T>()
    ensures stored { (g : Setting) (s : NodeState T) (e : Event T) (mark : T)
        (outcome : Result (Reply T) StepFault) (next : NodeState T) →
        AllAbove s → Steps g s e mark outcome next → next.closed ≡ false → AllAbove next }
    ensures served { (g : Setting) (s : NodeState T) (e : Event T) (mark : T)
        (outcome : Result (Reply T) StepFault) (next : NodeState T) →
        Steps g s e mark outcome next → (c : WebCopy T) → copy_served outcome ≡ Some c →
        IsAbove next.floors c }
{}

/// A step that leaves the node open keeps the store within its limits, with at most one copy of
/// each key.
pub fn the_store_keeps_its_limits<T>()
    ensures { (g : Setting) (s : NodeState T) (e : Event T) (mark : T)
        (outcome : Result (Reply T) StepFault) (next : NodeState T) →
        AreStored g.roster.limits s.copies → Steps g s e mark outcome next → next.closed ≡ false →
        AreStored g.roster.limits next.copies }
{}

/// If at most 1,024 requests are pending, a step leaves at most 1,024.
pub fn few_asks_wait<T>()
    ensures { (g : Setting) (s : NodeState T) (e : Event T) (mark : T)
        (outcome : Result (Reply T) StepFault) (next : NodeState T) →
        length s.pending ≤ 1024 → Steps g s e mark outcome next → length next.pending ≤ 1024 }
{}

/// Blocks come round: the next block stays one of 1 to 134,217,727 (`next`). While fewer than 1,024
/// requests are pending, there is a block for one more, which none of them has (`free`). So a node
/// is `Busy` only while 1,024 are pending.
pub fn blocks_come_round<T>()
    ensures next { (g : Setting) (s : NodeState T) (e : Event T) (mark : T)
        (outcome : Result (Reply T) StepFault) (next : NodeState T) →
        IsBlock s.next → Steps g s e mark outcome next → IsBlock next.next }
    ensures free { (s : NodeState T) →
        IsBlock s.next → length s.pending < 1024 → HasFreeBlock s }
{}

/// Serials are not shared. The blocks of pending requests ascend, so no two are the same (`apart`).
/// And while a fetch runs, its request stays pending and the fetch has its serial, until an event
/// ends it or the node closes (`fetches`). So a fetch that runs has the block of a pending request,
/// and a new request gets another.
pub fn serials_are_not_shared<T>()
    ensures apart { (g : Setting) (s : NodeState T) (e : Event T) (mark : T)
        (outcome : Result (Reply T) StepFault) (next : NodeState T) →
        IsBlock s.next → Ascend 0 s.pending → Steps g s e mark outcome next →
        Ascend 0 next.pending }
    ensures fetches { (g : Setting) (s : NodeState T) (e : Event T) (mark : T)
        (outcome : Result (Reply T) StepFault) (next : NodeState T) →
        Ascend 0 s.pending → Steps g s e mark outcome next → next.closed ≡ false →
        AllByRecursion (KeepsFetch e next) s.pending }
{}

/// A QUERY, a TST, and a request of a member that names this node a sibling begin nothing and leave
/// no request waiting (RFC 2187, section 2).
pub fn siblings_begin_nothing<T>()
    ensures { (g : Setting) (s : NodeState T) (e : Event T) (mark : T)
        (outcome : Result (Reply T) StepFault) (next : NodeState T) →
        is_from_sibling g e ≡ true → Steps g s e mark outcome next → BeginsNothing s outcome next }
{}

/// A node is outside while its entry joins and its base is 0. Such a node, where no request is
/// pending, serves no copy, begins nothing and leaves no request waiting (`serves`). It answers a
/// request with 503 (`client`, `member`), a QUERY with DENIED, whoever sent it (`query`), and a TST
/// that desires a response with the overall code 5 (`refused`). None of these changes it.
pub fn outside_nodes_serve_nothing<T>()
    ensures serves { (g : Setting) (s : NodeState T) (e : Event T) (mark : T)
        (outcome : Result (Reply T) StepFault) (next : NodeState T) →
        Steps g s e mark outcome next → OutsideServesNothing g s outcome next }
    ensures client { (g : Setting) (s : NodeState T) (mark : T) (ask : Ask) (now : ℕ) →
        s.closed ≡ false → is_outside g s ≡ true →
        step g s (event.Client ask now) mark ≡ replies s (serving None None (Status 503)) }
    ensures member { (g : Setting) (s : NodeState T) (mark : T) (asker : ℕ) (ask : Ask) (now : ℕ) →
        s.closed ≡ false → is_outside g s ≡ true →
        step g s (event.PeerAsk asker ask now) mark
        ≡ replies s (serving None (Some asker) (Status 503)) }
    ensures query { (g : Setting) (s : NodeState T) (mark : T) (from : Address) (m : Icp)
        (now : ℕ) →
        s.closed ≡ false → is_outside g s ≡ true → m.op ≡ ops.Query →
        step g s (event.Datagram from (message.Icp m) now) mark
        ≡ replies s (sending (to from (icp ops.Denied m.number m.url) ∷ [])) }
    ensures refused { (g : Setting) (s : NodeState T) (mark : T) (from : Address) (m : Htcp)
        (spec : Specifier) (now : ℕ) →
        s.closed ≡ false → is_outside g s ≡ true → m.content ≡ content.TstAsk true spec →
        step g s (event.Datagram from (message.Htcp m) now) mark
        ≡ replies s (sending (to from (overall m.trans tst not_allowed) ∷ [])) }
{}

/// Every step is lawful: it keeps all that the safety of purges rests on (`specs/Lawful`).
pub fn steps_are_lawful<T>()
    ensures { (g : Setting) (s : NodeState T) (e : Event T) (mark : T)
        (outcome : Result (Reply T) StepFault) (next : NodeState T) →
        Steps g s e mark outcome next → Lawful g s e mark outcome next }
{}

/// A node carries tags and never looks at them: replace each tag by another, and each step stays a
/// step. `run_laws` has the converse.
pub fn nodes_never_look_at_tags<T, U>()
    ensures function { (f : T → U) (g : Setting) (s : NodeState T) (e : Event T) (mark : T) →
        step g (retag_state f s) (retag_event f e) (f mark) ≡ retag_stepped f (step g s e mark) }
    ensures relation { (f : T → U) (g : Setting) (s : NodeState T) (e : Event T) (mark : T)
        (outcome : Result (Reply T) StepFault) (next : NodeState T) →
        Steps g s e mark outcome next →
        Steps g (retag_state f s) (retag_event f e) (f mark) (retag_outcome f outcome)
        (retag_state f next) }
{}
