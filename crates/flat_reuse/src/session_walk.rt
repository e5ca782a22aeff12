ghost use Rattle.std.specs.Prelude.{◌≡◌, ◌+◌, ◌<◌, ◌≤◌, OnOk, IfOk, Some};
ghost use Rattle.std.specs.List.{All};
ghost use Rattle.flat_snap.specs.Flat.{flat_nodes};
ghost use Rattle.flat_topology.specs.Fit.{greatest_opacity};
ghost use Rattle.flat_topology.specs.Shown.{nodes_of};
ghost use Rattle.flat_join.specs.Walking.{space_of};
ghost use Rattle.flat_reuse.specs.Parts.{laid_out};
ghost use Rattle.flat_reuse.specs.Pieces.{pieces};
ghost use Rattle.flat_reuse.specs.Tracing.{pushed, span_work, work, IsSpan, AreLow, IsTracing};
ghost use Rattle.flat_reuse.specs.Tracing.{GoesOn, StepsOn};

use crate::piece::SessionParts;
use flat_base::{NoMemory, OPACITY_MAX, SessionNo};
use flat_join::Scope;
use flat_snap::Snapshot;
use std::alloc::Global;

/// Nodes that stand side by side, with all below them, from a number to before
/// another one.
#[derive(Clone, Copy)]
pub struct NodeSpan {
    pub next: u32,
    pub end: u32,
    /// What the nodes above hand on.
    pub scope: Scope,
}

/// A walk over the nodes of a session: what they gave, and what is left, the last
/// span first.
#[derive(Drop)]
pub struct SessionWalk {
    pub parts: SessionParts,
    pub left: Vec<NodeSpan>,
}

impl SessionWalk {
    /// A span comes next, if it has a node.
    fn push(&mut self, span: NodeSpan) -> Result<(), NoMemory>
        ensures parts { self.new.parts ≡ self.old.parts }
        ensures left { OnOk result (self.new.left.items ≡ pushed self.old.left.items span) }
    {
        if span.next < span.end {
            self.left.push(span)?;
        }
        Ok(())
    }

    /// Goes over the first node of a span, and answers the span that comes next: what is
    /// below it, and after that what is left; where nothing is below it, what is after it.
    fn step(
        &mut self,
        alloc: Global,
        state: &Snapshot,
        session: SessionNo,
        span: NodeSpan,
    ) -> Result<NodeSpan, NoMemory>
        requires some { span.next < span.end }
        requires is { IsSpan (flat_nodes state.now) span }
        requires whole { All (IsSpan (flat_nodes state.now)) self.old.left.items }
        requires low { AreLow (flat_nodes state.now) }
        ensures goes { IfOk result (λ next. StepsOn session.0 (flat_nodes state.now) self.old span
            self.new next) }
        ensures work { IfOk result (λ next.
            work (flat_nodes state.now) self.new.left.items + span_work (flat_nodes state.now) next
            < work (flat_nodes state.now) self.old.left.items
            + span_work (flat_nodes state.now) span) }
    {
        let node = state.node(span.next);
        let scope = span.scope.inner(&node);
        self.parts.add_node(alloc, session, &scope, &node)?;
        let after = NodeSpan {
            next: node.end,
            ..span
        };
        if span.next + 1 == node.end {
            return Ok(after);
        }
        self.push(after)?;
        Ok(NodeSpan {
            next: span.next + 1,
            end: node.end,
            scope,
        })
    }

    /// Goes over a span that was taken from those that are left, as far as its nodes stand
    /// side by side or one below another.
    fn take(
        &mut self,
        alloc: Global,
        state: &Snapshot,
        session: SessionNo,
        span: NodeSpan,
    ) -> Result<(), NoMemory>
        requires is { IsSpan (flat_nodes state.now) span }
        requires whole { All (IsSpan (flat_nodes state.now)) self.old.left.items }
        requires low { AreLow (flat_nodes state.now) }
        ensures goes { OnOk result (GoesOn session.0 (flat_nodes state.now) self.old span
            self.new) }
        ensures work { OnOk result (work (flat_nodes state.now) self.new.left.items
            < work (flat_nodes state.now) self.old.left.items + span_work (flat_nodes state.now)
            span) }
    {
        let mut next = span;
        while next.next < next.end {
            next = self.step(alloc, state, session, next)?;
        }
        Ok(())
    }
}

/// What a session gives that shows this state in this scope. A node gives one item at
/// most, so the room for items is taken once.
pub fn parts_in(
    alloc: Global,
    state: &Snapshot,
    session: SessionNo,
    scope: Scope,
) -> Result<SessionParts, NoMemory>
    requires low { scope.opacity ≤ OPACITY_MAX }
    requires opacities { greatest_opacity (nodes_of (Some state.now)) ≤ OPACITY_MAX }
    ensures { IfOk result (λ parts. parts ≡ laid_out (pieces session.0 (nodes_of (Some state.now))
        (space_of scope))) }
{
    let parts = SessionParts::with_room(alloc, state.nodes() as usize)?;
    let mut trace = SessionWalk {
        parts,
        left: Vec::new(alloc),
    };
    trace.left.push(NodeSpan {
        next: 0,
        end: state.nodes(),
        scope,
    })?;
    while let Some(span) = trace.left.pop() {
        trace.take(alloc, state, session, span)?;
    }
    Ok(trace.parts)
}
