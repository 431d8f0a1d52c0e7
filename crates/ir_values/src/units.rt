use crate::constants::{Const, Operand};
use crate::instructions::{BinOp, CastOp, Pred};
use crate::types::Ty;
use ltt_base::{List, Text};

/// A unit: the text of its first token, and what the unit says.
#[derive(Drop)]
pub struct Unit {
    pub first: Text,
    pub form: Form,
}

/// An attachment, `, !KIND !NODE`; the node's number is kept as its digits.
#[derive(Drop)]
pub struct Attach {
    pub kind: Text,
    pub node: Text,
}

/// A parameter. `left` lists the left-out words that stand with it, in text order.
#[derive(Drop)]
pub struct Param {
    pub ty: Ty,
    pub left: List<Text>,
    pub name: Option<Text>,
}

/// The head of a function. `dots` tells that `...` ends its parameters.
#[derive(Drop)]
pub struct Head {
    pub name: Text,
    pub linkage: Option<Text>,
    pub result: Ty,
    pub params: List<Param>,
    pub dots: bool,
    pub left: List<Text>,
    pub attached: List<Attach>,
}

/// An argument of a call: a value, `metadata !".."` with its bytes, or `metadata !N` with its digits.
#[derive(Drop)]
pub enum Arg {
    Value {
        ty: Ty,
        left: List<Text>,
        value: Operand,
    },
    Word(Text),
    Node(Text),
}

/// A part of a metadata node.
///
/// Source: LLVM Language Reference, "Metadata Nodes and Metadata Strings".
#[derive(Drop)]
pub enum MetaItem {
    Const(Ty, Const),
    Node(Text),
    Word(Text),
    Null,
    Nested(List<MetaItem>),
}

/// Which line of a module's head a unit is.
#[derive(Clone, Copy)]
pub enum HeaderKind {
    Source,
    Layout,
    Triple,
}

/// A branch.
#[derive(Drop)]
pub enum BranchText {
    Br {
        to: Text,
    },
    CondBr {
        cond: Operand,
        yes: Text,
        no: Text,
    },
    Switch {
        ty: Ty,
        value: Operand,
        other: Text,
        cases: List<(Ty, Const, Text)>,
    },
}

/// The end of a function's run.
#[derive(Drop)]
pub enum EndText {
    RetVoid,
    Ret { ty: Ty, value: Operand },
    Unreachable,
}

/// What a unit says, one variant a form. Words that change nothing are in no field.
#[derive(Drop)]
pub enum Form {
    HeaderForm {
        kind: HeaderKind,
        value: Text,
    },
    TypeForm {
        name: Text,
        ty: Option<Ty>,
    },
    ComdatForm {
        name: Text,
    },
    AttributesForm {
        number: Text,
    },
    VariableForm {
        name: Text,
        linkage: Option<Text>,
        constant: bool,
        ty: Ty,
        init: Option<Const>,
        align: Option<Option<u64>>,
        attached: List<Attach>,
    },
    DeclareForm {
        head: Head,
    },
    DefineForm {
        head: Head,
    },
    LabelForm {
        name: Text,
    },
    CloseForm,
    MetadataForm {
        name: Text,
        distinct: bool,
        items: List<MetaItem>,
    },
    SummaryForm {
        number: Text,
    },
    BinaryForm {
        dst: Option<Text>,
        op: BinOp,
        ty: Ty,
        a: Operand,
        b: Operand,
    },
    CompareForm {
        dst: Option<Text>,
        pred: Pred,
        ty: Ty,
        a: Operand,
        b: Operand,
    },
    SelectForm {
        dst: Option<Text>,
        cond_ty: Ty,
        cond: Operand,
        ty: Ty,
        a: Operand,
        other_ty: Ty,
        b: Operand,
    },
    CastForm {
        dst: Option<Text>,
        op: CastOp,
        from: Ty,
        a: Operand,
        to: Ty,
    },
    AddressForm {
        dst: Option<Text>,
        ty: Ty,
        base: Operand,
        index: List<(Ty, Operand)>,
    },
    LoadForm {
        dst: Option<Text>,
        ty: Ty,
        addr: Operand,
    },
    StoreForm {
        ty: Ty,
        value: Operand,
        addr: Operand,
    },
    CallForm {
        dst: Option<Text>,
        result: Ty,
        whole: Option<List<Ty>>,
        dots: bool,
        callee: Operand,
        args: List<Arg>,
        bundle: bool,
    },
    ExtractForm {
        dst: Option<Text>,
        value: Operand,
        part: Option<u64>,
    },
    PhiForm {
        dst: Option<Text>,
        ty: Ty,
        arms: List<(Operand, Text)>,
    },
    BranchForm {
        text: BranchText,
    },
    EndForm {
        text: EndText,
    },
    NumberForm {
        dst: Option<Text>,
        value: Operand,
    },
    TableForm {
        name: Text,
        funcs: List<Text>,
    },
    LeftForm {
        word: Text,
    },
}
