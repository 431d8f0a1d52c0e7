// Variables, tables and functions, each in whole lines.
ghost use Rattle.std.specs.Prelude.{◌++◌, codes, decimal, map, flat_map, get_or};
ghost use Rattle.ir_values.specs.declared.types.Ty.{Ty};
ghost use Rattle.ir_print.specs.Items as Spec;
ghost use Rattle.ir_names.specs.Names.{global_text};
ghost use Rattle.ir_print.specs.Pieces.{commas};
ghost use Rattle.ir_names.specs.Puts.{Puts};

use crate::constants::put_typed_const;
use crate::instructions::put_inst;
use crate::types::{put_comma, put_ty, put_types};
use ir_names::{Printer, put_decimal, put_global, put_local, put_name};
use ir_values::{Block, Const, Func, Inst, Jump, Linkage, Ty, Var};
use ltt_base::Text;

/// Prints a variable.
#[tactic(auto, unfolding(crate::specs::Items::var_pieces))]
pub fn put_var<P: Printer>(line: &mut P, var: &Var)
    ensures { Puts (P.state line.old) (P.state line.new) (Spec.var_text var.now) }
{
    put_global(line, var.name.bytes());
    line.put(b" = ");
    put_linkage(line, var.linkage, &var.init);
    put_kind(line, var.constant);
    put_content(line, &var.ty, &var.init);
    put_align(line, var.align)
}

fn put_align<P: Printer>(line: &mut P, align: u64)
    ensures { Puts (P.state line.old) (P.state line.new) (codes ", align " ++ decimal align ++ codes "\n") }
{
    line.put(b", align ");
    put_decimal(line, align);
    line.put(b"\n")
}

fn put_private<P: Printer>(line: &mut P, linkage: Linkage)
    ensures { Puts (P.state line.old) (P.state line.new) (Spec.private_text linkage) }
{
    match linkage {
        Linkage::Private => line.put(b"private "),
        _ => line.put(b""),
    }
}

fn put_linkage<P: Printer>(line: &mut P, linkage: Linkage, init: &Option<Const>)
    ensures { Puts (P.state line.old) (P.state line.new) (Spec.linkage_text linkage init.now) }
{
    match init {
        None => line.put(b"external "),
        Some(_) => put_private(line, linkage),
    }
}

fn put_kind<P: Printer>(line: &mut P, constant: bool)
    ensures { Puts (P.state line.old) (P.state line.new) (Spec.kind_text constant) }
{
    if constant {
        line.put(b"constant ")
    } else {
        line.put(b"global ")
    }
}

fn put_content<P: Printer>(line: &mut P, ty: &Ty, init: &Option<Const>)
    ensures { Puts (P.state line.old) (P.state line.new) (Spec.content_text ty.now init.now) }
{
    match init {
        None => put_ty(line, ty),
        Some(init) => put_typed_const(line, init, ty),
    }
}

/// Prints a jump table.
#[tactic(auto, unfolding(crate::specs::Items::table_pieces))]
pub fn put_table<P: Printer>(line: &mut P, table: &Jump)
    ensures { Puts (P.state line.old) (P.state line.new) (Spec.table_text table.now) }
{
    line.put(b"jumptable ");
    put_global(line, table.name.bytes());
    line.put(b" align 8 { ");
    put_globals(line, table.funcs.items());
    line.put(b" }\n")
}

fn put_globals<P: Printer>(line: &mut P, names: &[Text])
    ensures { Puts (P.state line.old) (P.state line.new) (commas (map global_text names.now)) }
{
    for (at, name) in names.iter().enumerate() {
        put_comma(line, at);
        put_global(line, name.bytes());
    }
}

/// Prints the declaration of a function.
#[tactic(auto, unfolding(crate::specs::Items::declare_pieces))]
pub fn put_declaration<P: Printer>(line: &mut P, f: &Func)
    ensures { Puts (P.state line.old) (P.state line.new) (Spec.declare_text f.now) }
{
    line.put(b"declare ");
    put_ty(line, &f.fty.result);
    line.put(b" ");
    put_global(line, f.name.bytes());
    line.put(b"(");
    put_types(line, f.fty.params.items());
    line.put(b")\n")
}

/// Prints the definition of a function.
#[tactic(auto, unfolding(crate::specs::Items::define_pieces))]
pub fn put_definition<P: Printer>(line: &mut P, f: &Func)
    ensures { Puts (P.state line.old) (P.state line.new) (Spec.define_text f.now) }
{
    line.put(b"define ");
    put_private(line, f.linkage);
    put_ty(line, &f.fty.result);
    line.put(b" ");
    put_global(line, f.name.bytes());
    line.put(b"(");
    put_params(line, f.fty.params.items(), f.params.items());
    line.put(b") {\n");
    put_blocks(line, f.blocks.items());
    line.put(b"}\n")
}

fn put_params<P: Printer>(line: &mut P, types: &[Ty], params: &[Text])
    ensures { Puts (P.state line.old) (P.state line.new) (commas (Spec.params_text types.now params.now)) }
{
    for (at, param) in params.iter().enumerate() {
        put_comma(line, at);
        put_param(line, at, types, param);
    }
}

fn put_param<P: Printer>(line: &mut P, at: usize, types: &[Ty], param: &Text)
    ensures { Puts (P.state line.old) (P.state line.new) (Spec.param_text (get_or types.now at Ty.Void) param.now) }
{
    match types.get(at) {
        Some(ty) => put_param_of(line, ty, param),
        None => put_param_of(line, &Ty::Void, param),
    }
}

fn put_param_of<P: Printer>(line: &mut P, ty: &Ty, param: &Text)
    ensures { Puts (P.state line.old) (P.state line.new) (Spec.param_text ty.now param.now) }
{
    put_ty(line, ty);
    line.put(b" ");
    put_local(line, param.bytes())
}

fn put_blocks<P: Printer>(line: &mut P, blocks: &[Block])
    ensures { Puts (P.state line.old) (P.state line.new) (flat_map Spec.block_text blocks.now) }
{
    for block in blocks {
        put_block(line, block);
    }
}

#[tactic(auto, unfolding(crate::specs::Items::block_text))]
fn put_block<P: Printer>(line: &mut P, block: &Block)
    ensures { Puts (P.state line.old) (P.state line.new) (Spec.block_text block.now) }
{
    put_name(line, block.label.bytes());
    line.put(b":\n");
    put_insts(line, block.insts.items())
}

fn put_insts<P: Printer>(line: &mut P, insts: &[Inst])
    ensures { Puts (P.state line.old) (P.state line.new) (flat_map Spec.line_text insts.now) }
{
    for inst in insts {
        put_line(line, inst);
    }
}

#[tactic(auto, unfolding(crate::specs::Items::line_text))]
fn put_line<P: Printer>(line: &mut P, inst: &Inst)
    ensures { Puts (P.state line.old) (P.state line.new) (Spec.line_text inst.now) }
{
    line.put(b"  ");
    put_inst(line, inst);
    line.put(b"\n")
}
