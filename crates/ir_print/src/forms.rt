// The sorts of items that a module is printed by.
ghost use Rattle.std.specs.Prelude.{List, ℕ};
ghost use Rattle.ir_print.specs.Items.{var_text, table_text};
ghost use Rattle.ir_print.specs.ModuleText as Spec;
ghost use Rattle.ir_names.specs.Puts.{Puts};

use crate::items::{put_declaration, put_definition, put_table, put_var};
use ir_names::Printer;
use ir_values::{Func, Jump, Var};

/// A way of printing items of one sort.
pub trait Form {
    type Item;

    ghost text: { Self.Item → List ℕ };

    fn put<P: Printer>(line: &mut P, item: &Self::Item)
        ensures { Puts (P.state line.old) (P.state line.new) (text item.now) };
}

pub struct Variables;

pub struct Tables;

pub struct Declarations;

pub struct Definitions;

impl Form for Variables {
    type Item = Var;

    ghost text = { var_text };

    fn put<P: Printer>(line: &mut P, item: &Var) {
        put_var(line, item)
    }
}

impl Form for Tables {
    type Item = Jump;

    ghost text = { table_text };

    fn put<P: Printer>(line: &mut P, item: &Jump) {
        put_table(line, item)
    }
}

impl Form for Declarations {
    type Item = Func;

    ghost text = { Spec.declared_text };

    fn put<P: Printer>(line: &mut P, item: &Func) {
        if item.blocks.is_empty() {
            put_declaration(line, item)
        } else {
            line.put(b"")
        }
    }
}

impl Form for Definitions {
    type Item = Func;

    ghost text = { Spec.defined_text };

    fn put<P: Printer>(line: &mut P, item: &Func) {
        if item.blocks.is_empty() {
            line.put(b"")
        } else {
            put_definition(line, item)
        }
    }
}
