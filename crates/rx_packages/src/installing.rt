// The classes of a program, in the order in which they are installed.
ghost use Rattle.std.specs.Prelude.{◌≡◌, ◌<◌, ◌^◌, length, IfOk, IfErr, OnOk};
ghost use Rattle.rx_classes.specs.Installing.{CanInstall};
ghost use Rattle.rx_install.specs.Installation.{IsInstallationOrder};
ghost use Rattle.rx_packages.specs.Refusals.{IsStopped, NoneInstall};

use crate::reading::bad;
use crate::refused::SourceRefused;
use rx_classes::{ClassTable, DefineRefused};
use rx_install::{InstallRefused, installation_order};
use rx_tree::{ClassDef, MethodDef, OutOfMemory, Text};
use sqlite_items::Items;
use std::alloc::Global;

// A class can't be installed.
const NO_CLASS: u8 = 98;

// A class or one of its methods stands twice.
const TWICE: u8 = 99;

fn share_names(alloc: Global, names: &[Text]) -> Result<Items<Text>, OutOfMemory>
    ensures { IfOk result (λ shared. shared ≡ names.now) }
{
    let mut shared = Items::new(alloc);
    for name in names {
        let name = name.share()?;
        shared.push(name)?;
    }
    Ok(shared)
}

fn share_methods(alloc: Global, methods: &[MethodDef]) -> Result<Items<MethodDef>, OutOfMemory>
    ensures { IfOk result (λ shared. shared ≡ methods.now) }
{
    let mut shared = Items::new(alloc);
    for method in methods {
        let name = method.name.share()?;
        shared.push(MethodDef {
            name,
            body: method.body,
            class_side: method.class_side,
            private: method.private,
            guarded: method.guarded,
        })?;
    }
    Ok(shared)
}

// An equal class, or want of memory.
fn share_class(alloc: Global, class: &ClassDef) -> Result<ClassDef, OutOfMemory>
    ensures { IfOk result (λ shared. shared ≡ class.now) }
{
    let name = class.name.share()?;
    let parent = class.parent.share()?;
    let inherits = share_names(alloc, class.inherits.as_slice())?;
    let methods = share_methods(alloc, class.methods.as_slice())?;
    Ok(ClassDef {
        name,
        line: class.line,
        parent,
        mixin: class.mixin,
        inherits,
        methods,
    })
}

// Tries whether classes can be defined in their order.
#[tactic(auto, using(crate::proofs::InstallLemmas::defined))]
fn define_all(alloc: Global, source: &[u8], classes: &[ClassDef]) -> Result<(), SourceRefused>
    requires short { length source.now < 2 ^ 31 }
    requires few { length classes.now < 2 ^ 31 }
    ensures ok { OnOk result (CanInstall classes.now) }
    ensures err { IfErr result (IsStopped source.now (CanInstall classes.now → ⊥)) }
{
    let mut table = ClassTable::new(alloc)?;
    for class in classes {
        match table.define(share_class(alloc, class)?) {
            Ok(_) => {}
            Err(DefineRefused::OutOfMemory) => return Err(SourceRefused::OutOfMemory),
            Err(DefineRefused::Twice(_)) => return Err(bad(source, class.line, TWICE)),
            Err(
                DefineRefused::NoSuchClass(_)
                | DefineRefused::NotAMixin(_)
                | DefineRefused::BaseMissing(_)
                | DefineRefused::Closed(_),
            ) => return Err(bad(source, class.line, NO_CLASS)),
        }
    }
    Ok(())
}

/// The classes in their order of installation; or why they can't be installed.
#[tactic(auto, using(crate::proofs::InstallLemmas::installed))]
pub fn install(
    alloc: Global,
    source: &[u8],
    classes: Items<ClassDef>,
) -> Result<Items<ClassDef>, SourceRefused>
    requires short { length source.now < 2 ^ 31 }
    requires few { length classes < 2 ^ 31 }
    ensures order { IfOk result (IsInstallationOrder classes) }
    ensures can { IfOk result CanInstall }
    ensures err { IfErr result (IsStopped source.now (NoneInstall classes)) }
{
    let order = match installation_order(alloc, classes) {
        Ok(order) => order,
        Err(InstallRefused::NoOrder { line }) => return Err(bad(source, line, NO_CLASS)),
        Err(InstallRefused::OutOfMemory) => return Err(SourceRefused::OutOfMemory),
    };
    match define_all(alloc, source, order.as_slice()) {
        Ok(()) => Ok(order),
        Err(refused) => Err(refused),
    }
}
