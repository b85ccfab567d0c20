// The edges that a release needs, and whether they can be added.
ghost use Rattle.std.specs.Prelude.{◌≡◌, ◌≤◌, ◌↔◌, true};
ghost use Rattle.dep_graph.specs.Lists.{live_in};
ghost use Rattle.release_queue.specs.Needed.{ClosesInTurn, IsBlocked, edges_wanted, needed_edges, wanted};
ghost use Rattle.release_queue.specs.declared.TheConstants.{UNBORN};

use crate::{NOT_WRITTEN, Need, Release, WRITTEN, Wanted};
use dep_graph::Graph;

/// The edges that a release needs: a Live one from its map page at stage [`NOT_WRITTEN`], a Barrier one at stage [`WRITTEN`] and
/// none later, so that the name is gone before the count is lowered; and a Live one from its print page with `last_print`, so
/// that the print is gone before the count is 0. `last_print` says that the count becomes 0 and that the data page has a print
/// which a crash may leave. Constant.
pub fn needs(release: &Release, last_print: bool) -> Wanted
    requires { release.now.stage ≤ UNBORN }
    ensures wanted { result ≡ wanted release.now last_print }
    ensures edges { edges_wanted release.now result ≡ needed_edges release.now last_print }
{
    let from_map = match release.stage {
        NOT_WRITTEN => Need::Live,
        WRITTEN => Need::Barrier,
        _ => Need::Nothing,
    };
    let from_print = if last_print {
        Need::Live
    } else {
        Need::Nothing
    };
    Wanted {
        from_map,
        from_print,
    }
}

/// Whether a Live edge that the release needs would close a cycle. Where none does, both can be added, one after the other;
/// where one does, the release has to wait. It costs two calls of [`Graph::closes`] at most.
pub fn blocked(graph: &mut Graph, release: &Release, last_print: bool) -> bool
    requires { release.now.stage ≤ UNBORN }
    ensures blocked { (result ≡ true) ↔ IsBlocked (live_in graph.old) release.now last_print }
    ensures in_turn { (result ≡ true) ↔ ClosesInTurn (live_in graph.old) (needed_edges release.now last_print) }
    ensures same { graph.new ≡ graph.old }
{
    let wanted = needs(release, last_print);
    if wanted.from_map == Need::Live && graph.closes(release.map_at, release.count_at) {
        return true;
    }
    wanted.from_print == Need::Live && graph.closes(release.print_at, release.count_at)
}
