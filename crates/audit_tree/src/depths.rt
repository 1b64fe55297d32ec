ghost use Rattle.std.specs.Prelude.{◌≡◌};
ghost use Rattle.audit_tree.specs.Subtree.{depth, IsLeastDepth};

/// Returns the least depth at which a tree holds `count` leaves: the number of layers above the leaves, up to the
/// root.
pub fn depth_of(count: u64) -> u32
    ensures depth { result ≡ depth count }
    ensures least { IsLeastDepth count result }
{
    if count <= 1 {
        return 0;
    }
    (count - 1).ilog2() + 1
}
