//! Layouts of all objects.

ghost use Rattle.std.specs.Prelude.{◌≡◌, IfOk, IsSome, Some};
ghost use Rattle.gc_layout.specs.declared.object.GcLayout.TheVariants as variant;
ghost use Rattle.gc_layout.specs.Objects.{object_layout, array_in, struct_in};

use crate::array::GcArrayLayout;
use crate::fields::GcStructLayout;
use entity_map::OutOfMemory;
use std::rc::Rc;

/// The layout of an object of the collector.
#[derive(Drop)]
pub enum GcLayout {
    /// The layout of an array.
    Array(GcArrayLayout),
    /// The layout of a struct or an exception.
    Struct(Rc<GcStructLayout>),
}

impl From<GcArrayLayout> for GcLayout {
    ghost from_gives = { λ array layout. layout ≡ variant.Array array };

    fn from(layout: GcArrayLayout) -> GcLayout {
        GcLayout::Array(layout)
    }
}

impl From<Rc<GcStructLayout>> for GcLayout {
    ghost from_gives = { λ fields layout. layout ≡ variant.Struct fields };

    fn from(layout: Rc<GcStructLayout>) -> GcLayout {
        GcLayout::Struct(layout)
    }
}

impl GcLayout {
    /// The struct or exception layout, where the layout is one.
    pub fn unwrap_struct(&self) -> &Rc<GcStructLayout>
        requires { IsSome (struct_in self.now) }
        ensures { struct_in self.now ≡ Some result.now.value }
    {
        match self {
            GcLayout::Struct(layout) => layout,
            GcLayout::Array(_) => unreachable!(),
        }
    }

    /// The array layout, where the layout is one.
    pub fn unwrap_array(&self) -> &GcArrayLayout
        requires { IsSome (array_in self.now) }
        ensures { array_in self.now ≡ Some result.now }
    {
        match self {
            GcLayout::Array(layout) => layout,
            GcLayout::Struct(_) => unreachable!(),
        }
    }

    /// An equal layout; that of a struct or an exception is shared.
    ///
    /// # Errors
    /// `OutOfMemory` where the copy finds no memory.
    pub fn try_clone(&self) -> Result<Self, OutOfMemory>
        ensures { IfOk result (λ layout. object_layout layout ≡ object_layout self.now) }
    {
        Ok(match self {
            GcLayout::Array(layout) => GcLayout::Array(*layout),
            GcLayout::Struct(layout) => GcLayout::Struct(layout.clone()?),
        })
    }
}
