//! The viewer.
ghost use Rattle.std.specs.Prelude.{◌≡◌, ◌≤◌, ◌*◌, [], Some, Err, IfOk, IfErr, OnOk, OnErr};
ghost use Rattle.std.specs.Prelude.{length, take};
ghost use Rattle.pm_base.specs.Counts.{set_of};
ghost use Rattle.pm_front.specs.Shown.{active_nodes, kept_faces};
ghost use Rattle.pm_arrays.specs.Arrays.{place_array, position_array, node_array};
ghost use Rattle.pm_change.specs.Arrays.{sizes_of_change, ChangeFits, BeginWith, LeavesBehind};
ghost use Rattle.pm_session.specs.Script.{now_marked, now_split, adapted_to, after_view};
ghost use Rattle.pm_session.specs.Session.{LineEnds, change_since};
ghost use Rattle.pm_viewer.specs.Viewing.{live_deed, viewer_state, FrameFits, FrameLeaves};

use crate::filling::{TooSmall, positions_of, write_frame};
use crate::reply::{LEAST_ROOM, Reply};
use pm_change::ChangeSizes;
use pm_forest::Hierarchy;
use pm_refine::Adapted;
use pm_session::{Grammar, LineFail, Next, Session};
use pm_view::View;
use std::alloc::{AllocError, Global};
use std::marker::Model;

// How many bytes a script line has at most.
const MOST_LINE: usize = 1024;

/// A hierarchy that is being shown, and the reply to the last line. Contracts see its session, how
/// many decimals the coordinates of its stream have, and the reply.
#[derive(Drop)]
pub struct Viewer {
    session: Box<Session>,
    digits: u32,
    reply: Reply,
    // A number for each node, in which a frame tells where each active node stands.
    positions: Vec<u32>,
}

impl Model for Viewer {
    ghost use Rattle.std.specs.Prelude.{◌≡◌, ◌≤◌, length};
    ghost use Rattle.pm_forest.specs.Forest.{node_count};
    ghost use Rattle.pm_session.specs.declared.grammar.Grammar.TheVariants as grammars;
    ghost use Rattle.pm_viewer.specs.Viewing.{Viewed};

    ghost Value = { Viewed };

    ghost view = { λ v. record {
      shown = v.session.value;
      digits = v.digits;
      reply = v.reply.got;
    } };

    ghost invariant = { λ v. (v.session.value.grammar ≡ grammars.Live) × (v.digits ≤ 4) ×
        (length v.positions.items ≡ node_count v.session.value.h) };
}

impl Viewer {
    // A viewer of a session, with an empty reply.
    pub(crate) fn of(
        alloc: Global,
        session: Box<Session>,
        digits: u32,
    ) -> Result<Viewer, AllocError>
        requires live { session.value.grammar ≡ Grammar.Live }
        requires few { digits ≤ 4 }
        ensures { IfOk result (λ v. v
            ≡ record { shown = session.value; digits = digits; reply = [] }) }
    {
        let positions = positions_of(alloc, session.front())?;
        let reply = Reply::new(alloc)?;
        Ok(Viewer {
            session,
            digits,
            reply,
            positions,
        })
    }

    /// Does one line of a script of `live`, which is given without its LF, and keeps the reply.
    /// BadLine comes exactly where the line is none of the forms, and NoRecord exactly where it
    /// names a record that isn't there; nothing is changed then, and the reply is empty. Write
    /// comes only where memory for the reply was wanting: what the line does is done, and of its
    /// reply the first bytes are kept, LEAST_ROOM or more.
    pub fn line(&mut self, text: &[u8]) -> Result<Next, LineFail>
        ensures ends { let s = viewer_state self.old in
            LineEnds (live_deed self.old.shown.h s text.now) result s (viewer_state self.new)
            (Some []) (Some self.new.reply) }
        ensures hierarchy { self.new.shown.h ≡ self.old.shown.h }
        ensures digits { self.new.digits ≡ self.old.digits }
        ensures refused { IfErr result (λ e. (e ≡ LineFail.Write → ⊥) → self.new.shown
            ≡ self.old.shown) }
        ensures cut { result ≡ Err LineFail.Write → LEAST_ROOM ≤ length self.new.reply }
    {
        self.reply.clear();
        if text.len() > MOST_LINE {
            return Err(LineFail::BadLine);
        }
        let ended = self.session.line(text, &mut self.reply);
        self.reply.invariant();
        ended
    }

    /// Adapts the mesh to a view, as its line does, and answers how many moves were made and how
    /// many are left. The reply stays.
    pub fn look(&mut self, view: &View) -> Adapted
        ensures adapted { result ≡ adapted_to self.old.shown.h self.old.shown.budget
            (set_of self.old.shown.flags) view.now }
        ensures after { viewer_state self.new ≡ now_split (viewer_state self.old)
            (after_view self.old.shown.h self.old.shown.budget (set_of self.old.shown.flags)
            view.now) }
        ensures same { (self.new.shown.h ≡ self.old.shown.h) × (self.new.digits ≡ self.old.digits)
            × (self.new.reply ≡ self.old.reply) }
    {
        self.session.look(view)
    }

    /// The reply to the last line, which stays until the next.
    pub fn reply(&self) -> &[u8]
        ensures { result.now ≡ self.now.reply }
    {
        self.reply.bytes()
    }

    /// How many decimals the coordinates have: a place of the hierarchy is a whole number of units
    /// of 10 to the power of minus this.
    pub fn digits(&self) -> u32
        ensures value { result ≡ self.now.digits }
        ensures few { result ≤ 4 }
    {
        self.digits
    }

    /// How many nodes are active. O(1).
    pub fn shown_nodes(&self) -> u32
        ensures { result ≡ length (active_nodes self.now.shown.h (set_of self.now.shown.flags)) }
    {
        self.session.front().active_count()
    }

    /// How many faces are kept. O(1).
    pub fn shown_faces(&self) -> u32
        ensures { result ≡ length (kept_faces self.now.shown.h (set_of self.now.shown.flags)) }
    {
        self.session.front().kept_count()
    }

    pub(crate) fn hierarchy(&self) -> &Hierarchy
        ensures { result.now ≡ self.now.shown.h }
    {
        self.session.front().hierarchy()
    }

    pub(crate) fn session(&self) -> &Session
        ensures shown { result.now ≡ self.now.shown }
        ensures live { result.now.grammar ≡ Grammar.Live }
    {
        &self.session
    }

    /// Writes the mesh that is shown to the front of the arrays, in the order of the frame text:
    /// the numbers of the active nodes into `nodes` and their places into `places`, three
    /// coordinates for each; the numbers of the kept faces into `faces`, and their corners, three
    /// for each, into `corners` as positions in `nodes`, counted from 0, and into `corner_nodes` as
    /// nodes. It is refused exactly where an array has less room, and nothing is written then. It
    /// costs a pass over all nodes and faces, and takes no memory.
    pub fn frame(
        &mut self,
        nodes: &mut [u32],
        places: &mut [i32],
        faces: &mut [u32],
        corners: &mut [u32],
        corner_nodes: &mut [u32],
    ) -> Result<(), TooSmall>
        ensures fits { OnOk result (FrameFits self.old.shown.h (set_of self.old.shown.flags)
            (length nodes.old) (length places.old) (length faces.old) (length corners.old)
            (length corner_nodes.old)) }
        ensures refused { OnErr result (FrameFits self.old.shown.h (set_of self.old.shown.flags)
            (length nodes.old) (length places.old) (length faces.old) (length corners.old)
            (length corner_nodes.old) → ⊥) }
        ensures nodes { let n = length (active_nodes self.old.shown.h
            (set_of self.old.shown.flags)) in
            OnOk result (take n nodes.new ≡ active_nodes self.old.shown.h
            (set_of self.old.shown.flags)) }
        ensures places { let n = length (active_nodes self.old.shown.h
            (set_of self.old.shown.flags)) in
            OnOk result (take (3 * n) places.new ≡ place_array self.old.shown.h
            (set_of self.old.shown.flags)) }
        ensures faces { let n = length (kept_faces self.old.shown.h
            (set_of self.old.shown.flags)) in
            OnOk result (take n faces.new ≡ kept_faces self.old.shown.h
            (set_of self.old.shown.flags)) }
        ensures corners { let n = length (kept_faces self.old.shown.h
            (set_of self.old.shown.flags)) in
            OnOk result (take (3 * n) corners.new ≡ position_array self.old.shown.h
            (set_of self.old.shown.flags)) }
        ensures corner_nodes { let n = length (kept_faces self.old.shown.h
            (set_of self.old.shown.flags)) in
            OnOk result (take (3 * n) corner_nodes.new ≡ node_array self.old.shown.h
            (set_of self.old.shown.flags)) }
        ensures behind { OnOk result (FrameLeaves self.old.shown.h (set_of self.old.shown.flags)
            nodes.old places.old faces.old corners.old corner_nodes.old
            nodes.new places.new faces.new corners.new corner_nodes.new) }
        ensures same { self.new ≡ self.old }
        ensures unwritten { OnErr result ((nodes.new ≡ nodes.old) × (places.new ≡ places.old) ×
            (faces.new ≡ faces.old)
            × (corners.new ≡ corners.old) × (corner_nodes.new ≡ corner_nodes.old)) }
    {
        write_frame(
            self.session.front(),
            &mut self.positions,
            nodes,
            places,
            faces,
            corners,
            corner_nodes,
        )
    }

    /// Writes what changed since the marked front to the front of the arrays, and marks the front
    /// as it stands, as the line `d` does; the reply stays. Each list ascends: `gone_faces` and
    /// `gone_nodes` are gone; `new_nodes` are new, with three coordinates each in `new_places`;
    /// `put_faces` are new or have another corner, with three nodes each in `put_corners`. It
    /// answers how many entries the lists have. It is refused exactly where an array has less
    /// room, with the same answer, and nothing is written or marked then. It takes no memory.
    pub fn change(
        &mut self,
        gone_faces: &mut [u32],
        gone_nodes: &mut [u32],
        new_nodes: &mut [u32],
        new_places: &mut [i32],
        put_faces: &mut [u32],
        put_corners: &mut [u32],
    ) -> Result<ChangeSizes, ChangeSizes>
        ensures fits { OnOk result (ChangeFits (sizes_of_change (change_since self.old.shown))
            (length gone_faces.old) (length gone_nodes.old) (length new_nodes.old)
            (length new_places.old) (length put_faces.old) (length put_corners.old)) }
        ensures refused { OnErr result (ChangeFits (sizes_of_change (change_since self.old.shown))
            (length gone_faces.old) (length gone_nodes.old) (length new_nodes.old)
            (length new_places.old) (length put_faces.old) (length put_corners.old) → ⊥) }
        ensures sizes { IfOk result (λ s. s ≡ sizes_of_change (change_since self.old.shown)) }
        ensures wanted { IfErr result (λ s. s ≡ sizes_of_change (change_since self.old.shown)) }
        ensures arrays { OnOk result (BeginWith (change_since self.old.shown) gone_faces.new
            gone_nodes.new new_nodes.new new_places.new put_faces.new put_corners.new) }
        ensures behind { OnOk result (LeavesBehind (change_since self.old.shown) gone_faces.old
            gone_nodes.old new_nodes.old new_places.old put_faces.old put_corners.old gone_faces.new
            gone_nodes.new new_nodes.new new_places.new put_faces.new put_corners.new) }
        ensures marked { OnOk result (viewer_state self.new ≡ now_marked (viewer_state self.old)) }
        ensures same { (self.new.shown.h ≡ self.old.shown.h) × (self.new.digits ≡ self.old.digits)
            × (self.new.reply ≡ self.old.reply) }
        ensures unchanged { OnErr result (self.new ≡ self.old) }
        ensures unwritten { OnErr result ((gone_faces.new ≡ gone_faces.old)
            × (gone_nodes.new ≡ gone_nodes.old) × (new_nodes.new ≡ new_nodes.old)
            × (new_places.new ≡ new_places.old) × (put_faces.new ≡ put_faces.old)
            × (put_corners.new ≡ put_corners.old)) }
    {
        self.session.change(
            gone_faces,
            gone_nodes,
            new_nodes,
            new_places,
            put_faces,
            put_corners,
        )
    }
}
