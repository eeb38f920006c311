//! Laws of mirrors of clusters.

ghost use Rattle.cluster_link.specs.Laws.{ClusterLinesAreHeard};

use watch_lines::texts_tell_one_line;

/// A mirror that follows a lawful body of a cluster hears its next line.
pub fn cluster_lines_are_heard()
    ensures { ClusterLinesAreHeard }
{
    texts_tell_one_line();
}
