//! The laws of types as data, of groups and so of all their parts. Each function is the proof of its clauses.

ghost use Rattle.std.specs.Prelude.{◌≡◌, ◌↔◌, map};
ghost use Rattle.wasm_spec.specs.TypeData.{Group, map_group, group_edges};
ghost use Rattle.type_spec.specs.Shapes.{Tells, erased};
ghost use Rattle.type_spec.specs.TypeShapes.{group_shape};
ghost use Rattle.type_spec.specs.Names.{Named, named, by_name, Alike};

/// Where each name is replaced by itself nothing changes, and replacing twice is replacing once.
pub fn map_laws<H, I, J, R, S, T>()
    ensures same { (x : Group H R) → map_group (λ a. a) (λ r. r) x ≡ x }
    ensures twice { (h : H → I) (k : I → J) (f : R → S) (g : S → T) (x : Group H R)
        → map_group k g (map_group h f x) ≡ map_group (λ a. k (h a)) (λ r. g (f r)) x }
{}

/// The edges of a group whose names were replaced are its edges, replaced.
pub fn edges_law<H, I, R, S>()
    ensures { (index : H → R) (index' : I → S) (h : H → I) (f : R → S) → ((a : H) → index' (h a) ≡ f (index a))
        → (x : Group H R) → group_edges index' (map_group h f x) ≡ map f (group_edges index x) }
{}

/// A group is determined by its frame, which has no references, and by its edges.
pub fn determined_law<H, K, R>()
    ensures { (kind : H → K) (index : H → R) → Tells kind index → (x y : Group H R)
        → map_group kind erased x ≡ map_group kind erased y → group_edges index x ≡ group_edges index y → x ≡ y }
{}

/// What two groups are mapped to is equal exactly where the groups are alike by what their
/// references are mapped to.
pub fn alike_law<R, S, T>()
    ensures { (f : R → T) (g : S → T) (x : Group (Named R) R) (y : Group (Named S) S)
        → (map_group (named f) f x ≡ map_group (named g) g y) ↔ Alike (by_name group_shape) (λ r s. f r ≡ g s) x y }
{}
