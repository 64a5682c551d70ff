//! The sizes of the records, in bytes; the header asserts the same of its structs. Made by embed/generate.

use std::mem::size_of;

const _: () = prove!(size_of::<crate::rows::Entities>() == 80);

const _: () = prove!(size_of::<crate::rows::Context>() == 60);

const _: () = prove!(size_of::<crate::rows::NumberRange>() == 8);

const _: () = prove!(size_of::<crate::rows::Span>() == 16);

const _: () = prove!(size_of::<crate::rows::ValueRow>() == 8);

const _: () = prove!(size_of::<crate::rows::MemoryRow>() == 40);

const _: () = prove!(size_of::<crate::rows::TableRow>() == 32);

const _: () = prove!(size_of::<crate::rows::GlobalRow>() == 12);

const _: () = prove!(size_of::<crate::rows::TagRow>() == 8);

const _: () = prove!(size_of::<crate::rows::ImageRow>() == 16);

const _: () = prove!(size_of::<crate::rows::SegmentRow>() == 24);

const _: () = prove!(size_of::<crate::rows::PassiveRow>() == 8);

const _: () = prove!(size_of::<crate::rows::ElementsRow>() == 24);

const _: () = prove!(size_of::<crate::rows::ItemsRow>() == 40);

const _: () = prove!(size_of::<crate::rows::LocalsRow>() == 12);

const _: () = prove!(size_of::<crate::rows::OperatorRow>() == 24);

const _: () = prove!(size_of::<crate::rows::GlobalValueRow>() == 32);

const _: () = prove!(size_of::<crate::rows::HintsRow>() == 16);

const _: () = prove!(size_of::<crate::rows::BranchHintRow>() == 12);

const _: () = prove!(size_of::<crate::rows::PassiveSegmentRow>() == 8);

const _: () = prove!(size_of::<crate::rows::PassiveElementsRow>() == 16);

const _: () = prove!(size_of::<crate::rows::ImportRow>() == 40);

const _: () = prove!(size_of::<crate::rows::ExportRow>() == 24);

const _: () = prove!(size_of::<crate::rows::LayoutRow>() == 40);

const _: () = prove!(size_of::<crate::rows::LayoutFieldRow>() == 8);

const _: () = prove!(size_of::<crate::rows::TypeRow>() == 40);

const _: () = prove!(size_of::<crate::rows::FieldRow>() == 12);

const _: () = prove!(size_of::<crate::rows::TrampolineRow>() == 8);

const _: () = prove!(size_of::<crate::struct_rows::FunctionImportLayout>() == 28);

const _: () = prove!(size_of::<crate::struct_rows::TableImportLayout>() == 28);

const _: () = prove!(size_of::<crate::struct_rows::MemoryImportLayout>() == 28);

const _: () = prove!(size_of::<crate::struct_rows::TagImportLayout>() == 28);

const _: () = prove!(size_of::<crate::struct_rows::GlobalImportLayout>() == 28);

const _: () = prove!(size_of::<crate::struct_rows::MemoryDefinitionLayout>() == 20);

const _: () = prove!(size_of::<crate::struct_rows::TableDefinitionLayout>() == 20);

const _: () = prove!(size_of::<crate::struct_rows::GlobalDefinitionLayout>() == 12);

const _: () = prove!(size_of::<crate::struct_rows::TagDefinitionLayout>() == 12);

const _: () = prove!(size_of::<crate::struct_rows::FuncRefLayout>() == 36);

const _: () = prove!(size_of::<crate::struct_rows::StoreContextLayout>() == 44);

const _: () = prove!(size_of::<crate::struct_rows::StaticContextLayout>() == 52);

const _: () = prove!(size_of::<crate::struct_rows::Structs>() == 336);

const _: () = prove!(size_of::<crate::record::RuntimeRow<'static>>() == 24);

const _: () = prove!(size_of::<crate::record::RegionRow>() == 24);

const _: () = prove!(size_of::<crate::record::FunctionNameRow<'static>>() == 24);

const _: () = prove!(size_of::<crate::record::ExpressionsRecord<'static>>() == 32);

const _: () = prove!(size_of::<crate::record::ElementItemsRecord<'static>>() == 64);

const _: () = prove!(size_of::<crate::record::BodyRow<'static>>() == 48);

const _: () = prove!(size_of::<crate::record::LocalNameRow<'static>>() == 24);

const _: () = prove!(size_of::<crate::record::PlanRecord<'static>>() == 1488);
