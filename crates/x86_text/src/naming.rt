//! The names that the lines of a text make, wherever they stand.
ghost use Rattle.std.specs.Prelude.{◌≡◌, [], ◌∷◌, IfOk, OnOk, Option};
ghost use Rattle.tso_core.specs.Systems.{Names};
ghost use Rattle.x86_text.specs.Bad.{label_in, makes, section};
ghost use Rattle.x86_text.specs.Naming.{
  IsSurvey,
  Notes,
  Tells,
  as_code,
  as_data,
  as_external,
  callee_named,
  instr_named,
  is_service,
  label_named,
  label_or_none,
  line_named,
  look,
  made_of,
  operand_named,
  operands_named,
  with_role,
};
ghost use Rattle.x86_print.specs.Views.{seen};
ghost use Rattle.x86_table.specs.Instruction.{operands_of};

use crate::cutting::first_line;
use crate::line::Line;
use crate::line_reading::read_line;
use indexmap::IndexMap;
use std::alloc::{AllocError, Global};
use tso_words::{Name, NoMemory};
use x86_print::view::{View, views_of};
use x86_table::instruction::Instr;

/// What a line makes of a name.
#[derive(Clone, Copy)]
pub enum Role {
    Code,
    Data,
    External,
}

/// What the lines of a text make of a name. A name with two roles is made twice, which is bad.
#[derive(Clone, Copy)]
pub struct Roles {
    pub code_label: bool,
    pub data_label: bool,
    pub external: bool,
}

/// The names that lines make, in the order of their first lines.
#[derive(Drop)]
pub struct NameTable {
    roles: IndexMap<Name, Roles>,
}

/// Whether the machine itself answers a call of this name.
pub fn is_service(name: &[u8]) -> bool
    ensures { result ≡ is_service name.now }
{
    name == b"malloc".as_slice()
        || (name == b"free".as_slice()
            || (name == b"thread_create".as_slice() || name == b"exit".as_slice()))
}

// Whether these are the roles of a label of code.
fn as_code(roles: Option<Roles>) -> bool
    ensures { result ≡ as_code roles }
{
    match roles {
        None => false,
        Some(roles) => roles.code_label,
    }
}

// Whether these are the roles of a label of data.
fn as_data(roles: Option<Roles>) -> bool
    ensures { result ≡ as_data roles }
{
    match roles {
        None => false,
        Some(roles) => roles.data_label,
    }
}

// Whether these are the roles of an external.
fn as_external(roles: Option<Roles>) -> bool
    ensures { result ≡ as_external roles }
{
    match roles {
        None => false,
        Some(roles) => roles.external,
    }
}

// The roles with one more.
fn with_role(role: Role, roles: Option<Roles>) -> Roles
    ensures { result ≡ with_role role roles }
{
    let (code_label, data_label, external) = (as_code(roles), as_data(roles), as_external(roles));
    match role {
        Role::Code => Roles {
            code_label: true,
            data_label,
            external,
        },
        Role::Data => Roles {
            code_label,
            data_label: true,
            external,
        },
        Role::External => Roles {
            code_label,
            data_label,
            external: true,
        },
    }
}

// What a label is made as in a section.
fn label_role(in_data: bool) -> Role
    ensures { made_of result ≡ label_in in_data }
{
    if in_data { Role::Data } else { Role::Code }
}

impl NameTable {
    // No names.
    fn new(alloc: Global) -> NameTable
        ensures { Tells (look result) [] }
    {
        NameTable {
            roles: IndexMap::new(alloc),
        }
    }

    // The roles of a name; None where no line makes it.
    fn roles_of(&self, name: &Name) -> Option<Roles>
        ensures { result ≡ look self.now name.now }
    {
        self.roles.get(name).copied()
    }

    // Adds what a line makes of a name.
    fn note(&mut self, name: Name, role: Role) -> Result<(), NoMemory>
        ensures { OnOk result (Notes (look self.old) (look self.new) ((name, made_of role) ∷ [])) }
    {
        let roles = with_role(role, self.roles_of(&name));
        self.roles.insert(name, roles).map_err(AllocError::from)?;
        Ok(())
    }

    // Adds what a line makes in a section, and gives the section behind it.
    fn note_line(&mut self, in_data: bool, said: Option<Line>) -> Result<bool, NoMemory>
        ensures section { IfOk result (λ behind. behind ≡ section in_data said) }
        ensures notes { OnOk result (Notes (look self.old) (look self.new) (makes in_data said)) }
    {
        match said {
            Some(Line::Text) => Ok(false),
            Some(Line::Data) => Ok(true),
            Some(Line::Label(name)) => {
                self.note(name, label_role(in_data))?;
                Ok(in_data)
            }
            Some(Line::Extern(name, _)) => {
                self.note(name, Role::External)?;
                Ok(in_data)
            }
            _ => Ok(in_data),
        }
    }

    /// Whether some line makes the name a label of code.
    pub fn is_code(&self, name: &Name) -> bool
        ensures { result ≡ as_code (look self.now name.now) }
    {
        as_code(self.roles_of(name))
    }

    // Whether some line makes the name a label.
    fn is_label(&self, name: &Name) -> bool
        ensures { result ≡ label_named (look self.now) name.now }
    {
        let roles = self.roles_of(name);
        as_code(roles) || as_data(roles)
    }

    // Whether a call may name it.
    fn is_callee(&self, name: &Name) -> bool
        ensures { result ≡ callee_named (look self.now) name.now }
    {
        let roles = self.roles_of(name);
        as_code(roles) || (as_external(roles) || is_service(name.bytes()))
    }

    // Whether the name, if there is one, is a label.
    fn is_label_or_none(&self, label: &Option<Name>) -> bool
        ensures { result ≡ label_or_none (look self.now) label.now }
    {
        match label {
            None => true,
            Some(name) => self.is_label(name),
        }
    }

    // Whether the name of an operand, if it has one, is a label.
    fn names_label(&self, view: View<'_>) -> bool
        ensures { result ≡ operand_named (look self.now) (seen view.entry) }
    {
        match view {
            View::Symbol(symbol) => self.is_label(&symbol.name),
            View::Memory(address) => self.is_label_or_none(&address.label),
            View::Bare(name) => self.is_label(name),
            _ => true,
        }
    }

    // Whether the names of an instruction's operands are labels.
    fn takes_operands(&self, instr: &Instr) -> bool
        ensures { result ≡ operands_named (look self.now) (operands_of instr.now) }
    {
        let views = views_of(instr);
        self.names_label(views.first) && self.names_label(views.second)
    }

    // Whether an instruction names what its place may name.
    fn takes_instr(&self, instr: &Instr) -> bool
        ensures { result ≡ instr_named (look self.now) instr.now }
    {
        match instr {
            Instr::JumpIf { label, .. } => self.is_code(label),
            Instr::Jump { label } => self.is_code(label),
            Instr::Call { name } => self.is_callee(name),
            _ => self.takes_operands(instr),
        }
    }

    /// Whether each name that a line uses is made for its place.
    pub fn takes_line(&self, line: &Line) -> bool
        ensures { result ≡ line_named (look self.now) line.now }
    {
        match line {
            Line::Op(instr) => self.takes_instr(instr),
            Line::Export(name) => self.is_label(name),
            _ => true,
        }
    }
}

/// The names that the lines of a text make, be they good or bad.
pub fn names_of(alloc: Global, text: &[u8]) -> Result<NameTable, NoMemory>
    ensures { IfOk result (λ table. IsSurvey text.now (look table)) }
{
    let mut table = NameTable::new(alloc);
    let mut in_data = false;
    let mut rest = text;
    while let Some(first) = first_line(rest) {
        let said = read_line(alloc, first.line)?;
        in_data = table.note_line(in_data, said)?;
        rest = first.rest;
    }
    Ok(table)
}
