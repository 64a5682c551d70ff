//! Calls of conversion that the planner does not make.

ghost use Rattle.std.specs.Prelude.{◌≡◌};
ghost use Rattle.wasm_spec.specs.declared.types.UnpackedIndex.TheVariants as index;
ghost use Rattle.type_spec.specs.Names.{FuncName};
ghost use Rattle.wasm_index.specs.Index.{index_of};
ghost use Rattle.wasm_types.specs.declared.index.EngineOrModuleTypeIndex.TheVariants.{Module};

use entity_map::EntityRef;
use form_reader::FuncType;
use std::test::Fail;
use wasm_convert::{ConstExpr, ConstOp, GlobalConstValue, Operands, TypeConvert};
use wasm_index::ModuleInternedTypeIndex;
use wasm_spec::{AbstractHeapType, HeapType, Operator, RefType, UnpackedIndex, ValType};
use wasm_types::{EngineOrModuleTypeIndex, WasmHeapType};

#[test]
fn one_constant_is_zero_or_not(rt: HostRuntime) -> Result<(), Fail> {
    let alloc = rt.alloc();
    let zero = ConstExpr::new(alloc, &[ConstOp::I32Const(0)])?;
    assert!(rt; !zero.provably_nonzero_i32());
    assert!(rt; ConstExpr::new(alloc, &[ConstOp::I32Const(-1)])?.provably_nonzero_i32());
    assert!(rt; zero.try_clone(alloc)?.ops() == zero.ops());
    let back = ConstOp::RefNull(WasmHeapType::Extern).to_operator();
    assert!(rt;
        matches!(
            back,
            Operator::RefNull {
                hty: HeapType::Abstract(AbstractHeapType::Any)
            }
        )
    );
    Ok(())
}

#[test]
fn operator_tells_its_parts(rt: HostRuntime) -> Result<(), Fail> {
    let sum = ConstOp::I32Add;
    assert!(rt; sum.name() == "i32.add");
    assert!(rt; sum.number() == 9);
    assert!(rt; sum.takes() == 2);
    assert!(rt; matches!(ConstOp::F32Const(7).operands(), Operands::Bits32(7)));
    assert!(rt;
        matches!(
            ConstOp::I32Const(5).constant(),
            Some(GlobalConstValue::I32(5))
        )
    );
    let total = sum.joined(GlobalConstValue::I32(5), GlobalConstValue::I32(-9));
    assert!(rt; matches!(total, Some(GlobalConstValue::I32(-4))));
    Ok(())
}

/// Knows the type 3 alone, which is a function type and becomes the type 0.
struct OneFunction;

impl TypeConvert for OneFunction {
    ghost knows = { λ _ i. i ≡ index.Module 3 };

    ghost look_up = { λ _ i. record { kind = FuncName; index = Module (index_of 0) } };

    fn lookup_heap_type(&self, index: UnpackedIndex) -> WasmHeapType {
        WasmHeapType::ConcreteFunc(self.lookup_type_index(index))
    }

    fn lookup_type_index(&self, _: UnpackedIndex) -> EngineOrModuleTypeIndex {
        EngineOrModuleTypeIndex::Module(ModuleInternedTypeIndex::from_u32(0))
    }
}

#[test]
fn function_type_names_what_its_index_becomes(rt: HostRuntime) -> Result<(), Fail> {
    let alloc = rt.alloc();
    let function = ValType::Ref(RefType {
        nullable: false,
        heap: HeapType::Concrete(UnpackedIndex::Module(3)),
    });
    let read = FuncType {
        params: Vec::from_slice(alloc, &[ValType::I32, function])?,
        results: Vec::from_slice(alloc, &[ValType::F64])?,
    };
    let converted = OneFunction.convert_func_type(alloc, &read)?;
    let text = format!(in alloc; "{converted}")?;
    assert!(rt; text.as_str() == "(func (param i32 (ref func (module 0))) (result f64))");
    Ok(())
}
