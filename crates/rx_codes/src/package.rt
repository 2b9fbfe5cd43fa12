// A package with its code.
ghost use Rattle.std.specs.Prelude.{◌≡◌, [], ◌∷◌, ◌++◌, length, slice_get, IfOk, option_map};
ghost use Rattle.std.specs.Option.{option_copied};
ghost use Rattle.rx_codes.specs.Programs.{coded_in};

use crate::coded::Coded;
use crate::fixing::symbols_of;
use rx_clause_tree::{Body, Package};
use rx_tree::{ClassDef, OutOfMemory, Shared, Text};
use sqlite_items::Items;
use std::alloc::Global;
use std::marker::Model;
use std::mem;
use std::sync::Arc;

/// A package, each body with its code. Contracts see the package.
pub struct CodedPackage {
    main: Coded,
    bodies: Items<Coded>,
    classes: Items<ClassDef>,
    routines: Items<(Text, u32)>,
    lines: Shared<Text>,
}

impl Drop for CodedPackage {
    fn drop(self) {
        let CodedPackage {
            main: _,
            bodies: _,
            classes: _,
            routines: _,
            lines: _,
        } = self;
    }
}

impl Model for CodedPackage {
    ghost use Rattle.rx_clause_tree.specs.declared.package.Package.{Package as Written};
    ghost use Rattle.rx_clause_tree.specs.contracts.package.Package.{the_row as package_row};
    ghost use Rattle.rx_codes.specs.Programs.{IsProgram, package_of};

    ghost Value = { Written };

    ghost coded = { package_row.coded };

    ghost view = { λ p. package_of p.main p.bodies p.classes p.routines p.lines };

    ghost invariant = { λ p. IsProgram (package_of p.main p.bodies p.classes p.routines p.lines) p.main p.bodies };
}

impl CodedPackage {
    /// The package with its code, or want of memory.
    pub fn new(alloc: Global, written: Package) -> Result<CodedPackage, OutOfMemory>
        ensures same { IfOk result (λ coded. coded ≡ written) }
    {
        let mut package = written;
        let empty = Body {
            clauses: Items::new(alloc),
        };
        let main = mem::replace(&mut package.main, empty);
        let bodies = mem::replace(&mut package.bodies, Items::new(alloc));
        let classes = mem::replace(&mut package.classes, Items::new(alloc));
        let routines = mem::replace(&mut package.routines, Items::new(alloc));
        let lines = mem::replace(&mut package.lines, Items::new(alloc));
        if bodies.len() > u32::MAX as usize {
            return Err(OutOfMemory);
        }
        let objects = symbols_of(alloc, classes.as_slice())?;
        let objects = Arc::new(alloc, objects)?;
        let main = Coded::new(alloc, &objects, main)?;
        let bodies = Coded::all(alloc, &objects, bodies)?;
        let lines = Shared::new(alloc, lines)?;
        Ok(CodedPackage {
            main,
            bodies,
            classes,
            routines,
            lines,
        })
    }

    /// A body with its code. The main body comes behind the others.
    pub fn coded(&self, body: u32) -> Option<&Coded>
        ensures { option_copied result ≡ option_map (coded_in self.now) (slice_get (self.now.bodies ++ self.now.main ∷ []) body) }
    {
        if body as usize == self.bodies.len() {
            return Some(&self.main);
        }
        self.bodies.get(body as usize)
    }

    /// The number of the main body.
    pub fn main_number(&self) -> u32
        ensures { result ≡ length self.now.bodies }
    {
        self.bodies.len() as u32
    }

    /// The classes.
    pub fn classes(&self) -> &[ClassDef]
        ensures { result.now ≡ self.now.classes }
    {
        self.classes.as_slice()
    }

    /// The routines.
    pub fn routines(&self) -> &[(Text, u32)]
        ensures { result.now ≡ self.now.routines }
    {
        self.routines.as_slice()
    }

    /// The lines of the source, or want of memory.
    pub fn lines(&self) -> Result<Shared<Text>, OutOfMemory>
        ensures { IfOk result (λ lines. lines ≡ self.now.lines) }
    {
        self.lines.share()
    }
}
