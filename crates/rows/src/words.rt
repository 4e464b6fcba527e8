//! Types, variables, functions and faults in words.

use c_lexer::Tokens;
use c_tree::Place;
use mx_base::Names;
use std::alloc::{AllocError, Global};
use std::str;
use type_values::{Arithmetic, Ty, Var};
use typed_unit::{TypedFunction, TypedUnit};
use unit_typing::TypeFault;

/// What is needed to say things of a unit in words.
#[derive(Drop)]
pub struct Shown<'a> {
    pub alloc: Global,
    pub names: &'a Names,
    pub tokens: &'a Tokens,
}

/// An arithmetic type as it is written.
fn arithmetic_text(kind: Arithmetic) -> &'static str {
    match kind {
        Arithmetic::Boolean => "_Bool",
        Arithmetic::Char => "char",
        Arithmetic::SignedChar => "signed char",
        Arithmetic::UnsignedChar => "unsigned char",
        Arithmetic::Short => "short",
        Arithmetic::UnsignedShort => "unsigned short",
        Arithmetic::Int => "int",
        Arithmetic::UnsignedInt => "unsigned",
        Arithmetic::Long => "long",
        Arithmetic::UnsignedLong => "unsigned long",
        Arithmetic::LongLong => "long long",
        Arithmetic::UnsignedLongLong => "unsigned long long",
        Arithmetic::Int128 => "__int128",
        Arithmetic::UnsignedInt128 => "unsigned __int128",
        Arithmetic::Float32 => "_Float32",
        Arithmetic::Float => "float",
        Arithmetic::Float32x => "_Float32x",
        Arithmetic::Float64 => "_Float64",
        Arithmetic::Double => "double",
        Arithmetic::Float64x => "_Float64x",
        Arithmetic::LongDouble => "long double",
        Arithmetic::Float128 => "_Float128",
    }
}

impl<'a> Shown<'a> {
    /// The text of a name.
    pub fn name(&self, name: u32) -> &str {
        if name >= self.names.len() {
            return "?";
        }
        match str::from_utf8(self.names.text_of(name)) {
            Ok(text) => text,
            Err(_) => "?",
        }
    }

    /// Appends `struct` or `union` with the tag, if there is one.
    fn push_tagged(
        &self,
        into: &mut String,
        word: &str,
        tag: Option<u32>,
    ) -> Result<(), AllocError> {
        into.push_str(word)?;
        if let Some(tag) = tag {
            into.push_str(" ")?;
            into.push_str(self.name(tag))?;
        }
        Ok(())
    }

    /// Appends the tag of a type, if it has one.
    pub fn push_tag(&self, into: &mut String, tag: Option<u32>) -> Result<(), AllocError> {
        match tag {
            Some(tag) => into.push_str(self.name(tag)),
            None => into.push_str("none"),
        }
    }

    /// Appends a type in words.
    pub fn push_type(
        &self,
        into: &mut String,
        typed: &TypedUnit,
        ty: &Ty,
    ) -> Result<(), AllocError> {
        match ty {
            Ty::Void => into.push_str("void"),
            Ty::Arith(kind) => into.push_str(arithmetic_text(*kind)),
            Ty::VaList => into.push_str("__builtin_va_list"),
            Ty::Pointer(to) => {
                into.push_str("pointer to ")?;
                self.push_type(into, typed, to)
            }
            Ty::Array(of) => {
                into.push_str("array of ")?;
                self.push_type(into, typed, of)
            }
            Ty::Func(gives) => {
                into.push_str("function giving ")?;
                self.push_type(into, typed, gives)
            }
            Ty::Struct(_) => self.push_tagged(into, "struct", typed.tag(ty)),
            Ty::Union(_) => self.push_tagged(into, "union", typed.tag(ty)),
        }
    }

    /// Appends the number of a file that isn't the first one.
    fn push_file(&self, into: &mut String, file: u16) -> Result<(), AllocError> {
        if file == 0 {
            return Ok(());
        }
        let text = format!(in self.alloc; " in file {file}")?;
        into.push_str(text.as_str())
    }

    /// Appends the line and column of a place.
    fn push_place(&self, into: &mut String, place: Place) -> Result<(), AllocError> {
        let (_, line, column) = self.tokens.line_of(place);
        let text = format!(in self.alloc; "{line}:{column}")?;
        into.push_str(text.as_str())?;
        self.push_file(into, place.file)
    }

    /// Appends a word and a place.
    pub fn push_at(&self, into: &mut String, word: &str, place: Place) -> Result<(), AllocError> {
        into.push_str(word)?;
        into.push_str(" ")?;
        self.push_place(into, place)
    }

    /// Appends a word, a name and its place.
    fn push_named(
        &self,
        into: &mut String,
        word: &str,
        name: u32,
        place: Place,
    ) -> Result<(), AllocError> {
        into.push_str(word)?;
        into.push_str(" ")?;
        self.push_at(into, self.name(name), place)
    }

    /// Appends a fault, with the name in it.
    pub fn push_fault(&self, into: &mut String, fault: TypeFault) -> Result<(), AllocError> {
        match fault {
            TypeFault::Undeclared { place, name } => {
                self.push_named(into, "Undeclared", name, place)
            }
            TypeFault::NoField { place, name } => self.push_named(into, "NoField", name, place),
            TypeFault::Redeclared { place, name } => {
                self.push_named(into, "Redeclared", name, place)
            }
            TypeFault::NotPointer { place } => self.push_at(into, "NotPointer", place),
            TypeFault::NotStruct { place } => self.push_at(into, "NotStruct", place),
            TypeFault::NotFunction { place } => self.push_at(into, "NotFunction", place),
            TypeFault::NotLvalue { place } => self.push_at(into, "NotLvalue", place),
            TypeFault::NoMemory => into.push_str("NoMemory"),
        }
    }

    /// Appends a variable in words.
    pub fn push_var(&self, into: &mut String, var: Option<Var>) -> Result<(), AllocError> {
        match var {
            None => into.push_str("none"),
            Some(Var::Extern { name }) => {
                into.push_str("extern ")?;
                into.push_str(self.name(name))
            }
            Some(Var::FileStatic { file, name }) => {
                into.push_str("static ")?;
                into.push_str(self.name(name))?;
                self.push_file(into, file)
            }
            Some(Var::LocalStatic { file, token, name }) => {
                self.push_named(into, "local static", name, Place { file, token })
            }
            Some(Var::Param { file, token, name }) => {
                self.push_named(into, "param", name, Place { file, token })
            }
            Some(Var::Local { file, token, name }) => {
                self.push_named(into, "local", name, Place { file, token })
            }
            Some(Var::Result) => into.push_str("result"),
            Some(Var::Called { file, token, name }) => {
                self.push_named(into, "called", name, Place { file, token })
            }
        }
    }

    /// Appends a function: its name and place, `own` where it belongs to its file, its parameters, and where its body begins.
    pub fn push_function(
        &self,
        into: &mut String,
        function: &TypedFunction,
    ) -> Result<(), AllocError> {
        self.push_named(into, "function", function.name, function.place)?;
        if function.file != function.place.file {
            into.push_str(" of another file")?;
        }
        if function.own {
            into.push_str(" own")?;
        }
        for formal in &function.formals {
            into.push_str(", ")?;
            self.push_var(into, *formal)?;
        }
        into.push_str(", body ")?;
        self.push_place(into, function.body.first)
    }
}
