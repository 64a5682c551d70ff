//! Layouts of objects, once each with ample memory.

use gc_layout::*;
use std::alloc::{AllocError, Global};
use std::process::Abort;
use std::rc::Rc;
use std::test::Fail;
use wasm_types::{WasmArrayType, WasmFieldType, WasmStorageType, WasmStructType, WasmValType};

const I32: WasmStorageType = WasmStorageType::Val(WasmValType::I32);

const I64: WasmStorageType = WasmStorageType::Val(WasmValType::I64);

fn fields(alloc: Global, types: &[WasmStorageType]) -> Result<Vec<WasmFieldType>, AllocError> {
    let mut fields = Vec::new(alloc);
    for ty in types {
        fields.push(WasmFieldType {
            element_type: *ty,
            mutable: false,
        })?;
    }
    Ok(fields)
}

fn array_of(element_type: WasmStorageType) -> WasmArrayType {
    WasmArrayType(WasmFieldType {
        element_type,
        mutable: true,
    })
}

fn lays_out(rt: &impl Abort, layout: &GcStructLayout, size: u32, align: u32, offsets: &[u32]) {
    assert!(rt; layout.size == size);
    assert!(rt; layout.align == align);
    assert!(rt; layout.fields.len() == offsets.len());
    for (field, offset) in layout.fields.iter().zip(offsets) {
        assert!(rt; field.offset == *offset);
        assert!(rt; !field.is_gc_ref);
    }
}

#[test]
fn fields_stand_at_multiples_of_their_size(rt: HostRuntime) -> Result<(), Fail> {
    let ty = WasmStructType {
        fields: fields(
            rt.alloc(),
            &[WasmStorageType::I8, I32, WasmStorageType::I16, I64],
        )?,
    };
    let layout = NullTypeLayouts.struct_layout(rt.alloc(), &ty)?;
    lays_out(&rt, &layout, 32, 8, &[8, 12, 16, 24]);
    assert!(rt; !layout.is_exception);
    let copy = layout.try_clone(rt.alloc())?;
    lays_out(&rt, &copy, 32, 8, &[8, 12, 16, 24]);
    assert!(rt; !copy.is_exception);
    Ok(())
}

#[test]
fn sizes_of_arrays_end_at_four_gibibytes(rt: HostRuntime) -> Result<(), Fail> {
    let layout = NullTypeLayouts.array_layout(&array_of(I64));
    assert!(rt; layout.elem_offset(3) == Some(40));
    for (len, size) in [
        (0, Some(16)),
        (536870909, Some(4294967288)),
        (536870910, None),
        (u32::MAX, None),
    ] {
        assert!(rt; layout.size_for_len(len) == size, "{len}");
        assert!(rt; layout.elem_offset(len) == size, "{len}");
        let whole = size.map(|size| Layout {
            size: size as usize,
            align: 8,
        });
        assert!(rt; layout.layout(len) == whole, "{len}");
    }
    let uneven = GcArrayLayout {
        align: 12,
        ..layout
    };
    assert!(rt; uneven.layout(0) == None);
    let bytes = DrcTypeLayouts.array_layout(&array_of(WasmStorageType::I8));
    assert!(rt; bytes.size_for_len(4294967267) == Some(4294967295));
    assert!(rt; bytes.size_for_len(4294967268) == None);
    Ok(())
}

#[test]
fn shared_layouts_tell_size_and_alignment(rt: HostRuntime) -> Result<(), Fail> {
    let fields = GcStructLayout {
        size: 48,
        align: 16,
        fields: Vec::new(rt.alloc()),
        is_exception: true,
    };
    assert!(rt;
        fields.layout()
            == Layout {
                size: 48,
                align: 16
            }
    );
    let layout = GcLayout::from(Rc::new(rt.alloc(), fields)?);
    assert!(rt; layout.unwrap_struct().size == 48);
    let copy = layout.try_clone()?;
    assert!(rt; matches!(copy, GcLayout::Struct(_)));
    assert!(rt; copy.unwrap_struct().size == 48);
    Ok(())
}

#[test]
fn kinds_match_by_their_bits(rt: HostRuntime) {
    use VMGcKind::{AnyRef, ArrayRef, EqRef, ExnRef, ExternRef, StructRef};
    assert!(rt; StructRef.matches(EqRef));
    assert!(rt; !ExternRef.matches(AnyRef));
    assert!(rt; ArrayRef.as_u32() == 0xA800_0000);
    assert!(rt; VMGcKind::from_high_bits_of_u32(0x0F0F_0F0F) == None);
    assert!(rt; VMGcKind::from_high_bits_of_u32(0xB000_0003) == Some(StructRef));
    assert!(rt; VMGcKind::try_from_u32(0xB000_0003) == None);
    assert!(rt; VMGcKind::try_from_u32(ExnRef.as_u32()) == Some(ExnRef));
    assert!(rt; VMGcKind::value_fits_in_unused_bits(67108863));
    assert!(rt; !VMGcKind::value_fits_in_unused_bits(67108864));
}

#[test]
fn offsets_in_headers_are_those_of_the_collector(rt: HostRuntime) {
    assert!(rt; DrcTypeLayouts.array_length_field_offset() == 24);
    assert!(rt; DrcTypeLayouts.exception_tag_instance_offset() == 24);
    assert!(rt; DrcTypeLayouts.exception_tag_defined_offset() == 28);
    assert!(rt; NullTypeLayouts::default().array_length_field_offset() == 8);
    assert!(rt; NullTypeLayouts.exception_tag_instance_offset() == 8);
    assert!(rt; NullTypeLayouts.exception_tag_defined_offset() == 12);
}
