ghost use Rattle.std.specs.Prelude.{◌≡◌, ◌<◌};
ghost use Rattle.key_clusters.specs.Keys.{cluster_at, scheme_at};

use mq_base::{AttrId, Scheme};

/// For each attribute, by its id, the cluster in which it is sealed and the scheme of that cluster. Ids of attributes that the
/// query does not name are clusters of their own. docs/MODEL.md, "Clusters and keys".
#[derive(Clone, Copy)]
pub struct Clusters {
    /// The least attribute of the cluster.
    pub cluster: [AttrId; 64],
    /// The scheme of the cluster.
    pub scheme: [Scheme; 64],
}

impl Clusters {
    /// The cluster of an attribute with an id below 64. It takes no memory.
    pub fn cluster_of(&self, a: AttrId) -> AttrId
        requires { a.0 < 64 }
        ensures { result ≡ cluster_at self.now a.0 }
    {
        self.cluster[usize::from(a.0)]
    }

    /// The scheme of an attribute with an id below 64. It takes no memory.
    pub fn scheme_of(&self, a: AttrId) -> Scheme
        requires { a.0 < 64 }
        ensures { result ≡ scheme_at self.now a.0 }
    {
        self.scheme[usize::from(a.0)]
    }
}
