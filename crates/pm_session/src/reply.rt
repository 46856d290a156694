//! The replies to moves, views, measures and picks.
ghost use Rattle.std.specs.Prelude.{◌≡◌, ◌≤◌, pos, ◌+ℤ◌, ◌-ℤ◌};
ghost use Rattle.pm_io.specs.Puts.{Puts};
ghost use Rattle.pm_base.specs.declared.limits.TheConstants.{MOST_FACES, MOST_NODES, MOST_SIDES};
ghost use Rattle.pm_session.specs.Script.{reply_to, view_reply, shape_line, pick_reply};

use pm_beyond::MoveFault;
use pm_io::{Line, Sink, WriteFault, put_all};
use pm_manifold::Measure;
use pm_pick::Hit;
use pm_refine::Adapted;

/// The line that replies to a move.
#[tactic(auto, unfolding(crate::specs::Script::reply_to))]
pub(crate) fn put_reply(line: &mut Line, fault: Option<MoveFault>)
    ensures { line.new ≡ reply_to fault }
{
    line.clear();
    match fault {
        None => line.add(b"ok\n"),
        Some(MoveFault::NotActive) => line.add(b"not active\n"),
        Some(MoveFault::Blocked(face)) => {
            line.add(b"blocked ");
            line.add_number(face.0);
            line.add(b"\n");
        }
    }
}

/// Puts the reply to a move.
pub(crate) fn put_answer<K: Sink>(fault: Option<MoveFault>, out: &mut K) -> Result<(), WriteFault>
    ensures { Puts K.Sink out.old out.new (reply_to fault) result }
{
    let mut line = Line::new();
    put_reply(&mut line, fault);
    put_all(out, line.as_slice())
}

/// The line that replies to a view.
#[tactic(auto, unfolding(crate::specs::Script::view_reply))]
pub(crate) fn put_view_reply(line: &mut Line, adapted: Adapted)
    ensures { line.new ≡ view_reply adapted }
{
    line.clear();
    match adapted {
        Adapted::Settled { moves } => {
            line.add(b"settled ");
            line.add_number(moves);
            line.add(b"\n");
        }
        Adapted::Spent { moves, left } => {
            line.add(b"spent ");
            line.add_number(moves);
            line.add(b" ");
            line.add_number(left);
            line.add(b"\n");
        }
    }
}

/// Puts the reply to a view.
pub(crate) fn put_adapted<K: Sink>(adapted: Adapted, out: &mut K) -> Result<(), WriteFault>
    ensures { Puts K.Sink out.old out.new (view_reply adapted) result }
{
    let mut line = Line::new();
    put_view_reply(&mut line, adapted);
    put_all(out, line.as_slice())
}

// The Euler number.
fn euler(measure: Measure) -> i32
    requires nodes { measure.nodes ≤ MOST_NODES }
    requires edges { measure.edges ≤ MOST_SIDES }
    requires faces { measure.faces ≤ MOST_FACES }
    ensures { result ≡ pos measure.nodes -ℤ pos measure.edges +ℤ pos measure.faces }
{
    measure.nodes as i32 - measure.edges as i32 + measure.faces as i32
}

/// The line that replies to `m`.
#[tactic(auto, unfolding(crate::specs::Script::shape_line))]
pub(crate) fn put_shape(line: &mut Line, measure: Measure)
    requires nodes { measure.nodes ≤ MOST_NODES }
    requires edges { measure.edges ≤ MOST_SIDES }
    requires faces { measure.faces ≤ MOST_FACES }
    ensures { line.new ≡ shape_line measure.nodes measure.edges measure.faces measure.loops }
{
    line.clear();
    line.add(b"shape ");
    line.add_number(measure.nodes);
    line.add(b" ");
    line.add_number(measure.edges);
    line.add(b" ");
    line.add_number(measure.faces);
    line.add(b" loops ");
    line.add_number(measure.loops);
    line.add(b" euler ");
    line.add_signed(euler(measure));
    line.add(b"\n");
}

/// The line that replies to `p`.
#[tactic(auto, unfolding(crate::specs::Script::pick_reply))]
pub(crate) fn put_hit(line: &mut Line, hit: Option<Hit>)
    ensures { line.new ≡ pick_reply hit }
{
    line.clear();
    match hit {
        None => line.add(b"miss\n"),
        Some(hit) => {
            line.add(b"hit ");
            line.add_number(hit.face.0);
            line.add(b" ");
            line.add_long_number(hit.s);
            line.add(b" ");
            line.add_long_number(hit.q);
            line.add(b"\n");
        }
    }
}
