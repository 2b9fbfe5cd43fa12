// The method of a message.
ghost use Rattle.std.specs.Prelude.{◌≡◌, ◌==◌, IfOk, position};
ghost use Rattle.rx_classes.specs.Classes.{IsClass};
ghost use Rattle.rx_classes.specs.Lookup.{find, find_from, first_method, method_at, scopes, sought};

use super::ClassTable;
use crate::method::{MethodId, Sought};
use crate::native::{CLASS, OBJECT, native_method};
use rx_tree::{OutOfMemory, Scope};

// The native classes that a class object belongs to.
const CLASS_OBJECT: [Scope; 2] = [
    Scope {
        class: CLASS,
        class_side: false,
    },
    Scope {
        class: OBJECT,
        class_side: false,
    },
];

// The place of the first scope of a class.
fn place_of(scopes: &[Scope], class: u32) -> Option<usize>
    ensures { result ≡ position (λ scope. class == scope.class) scopes.now }
{
    scopes.iter().position(|scope| class == scope.class)
}

impl ClassTable {
    // The method of a name that stands in a scope itself.
    fn method_at(&self, name: &[u8], scope: Scope) -> Option<MethodId>
        ensures { result ≡ method_at self.now name.now scope }
    {
        match self.kept(scope.class) {
            Some(kept) => kept.methods.get(scope.class_side, name),
            None => native_method(scope.class, scope.class_side, name).map(MethodId::Native),
        }
    }

    // The first method of a name in some scopes, with its scope.
    fn first_method(&self, name: &[u8], scopes: &[Scope]) -> Option<(Scope, MethodId)>
        ensures { result ≡ first_method self.now name.now scopes.now }
    {
        for scope in scopes {
            if let Some(method) = self.method_at(name, *scope) {
                return Some((*scope, method));
            }
        }
        None
    }

    // What the search in some scopes comes to.
    fn sought(&self, name: &[u8], scopes: &[Scope]) -> Sought
        ensures { result ≡ sought (first_method self.now name.now scopes.now) }
    {
        match self.first_method(name, scopes) {
            Some((scope, method)) => Sought::Found(scope, method),
            None => Sought::NoMethod,
        }
    }

    // The scopes that a search goes through.
    fn scopes(&self, class: u32, class_side: bool) -> Result<Vec<Scope>, OutOfMemory>
        requires { IsClass self.now class }
        ensures { IfOk result (λ found. found.items ≡ scopes self.now class class_side) }
    {
        let mut found = Vec::new(self.alloc);
        for class in &self.order(class)? {
            found.push(Scope {
                class: *class,
                class_side,
            })?;
        }
        if class_side {
            found.extend_from_slice(&CLASS_OBJECT)?;
        }
        Ok(found)
    }

    /// The method of a name, in upper case, with its scope: of the instances of a class, or of the class object itself. Or
    /// want of memory.
    ///
    /// For an instance it is the first one in the order of its class. For a class object the class sides come first, in that
    /// order, and then the methods of the instances of Class, and of Object.
    pub fn find(
        &self,
        class: u32,
        class_side: bool,
        name: &[u8],
    ) -> Result<Option<(Scope, MethodId)>, OutOfMemory>
        requires { IsClass self.now class }
        ensures found { IfOk result (λ found. found ≡ find self.now class class_side name.now) }
    {
        let scopes = self.scopes(class, class_side)?;
        Ok(self.first_method(name, scopes.as_slice()))
    }

    /// The same, where the search begins at the first place of a class among those that it goes through. Or want of memory.
    pub fn find_from(
        &self,
        class: u32,
        class_side: bool,
        from: u32,
        name: &[u8],
    ) -> Result<Sought, OutOfMemory>
        requires { IsClass self.now class }
        ensures sought { IfOk result (λ sought. sought ≡ find_from self.now class class_side from name.now) }
    {
        let scopes = self.scopes(class, class_side)?;
        match place_of(scopes.as_slice(), from) {
            Some(place) => Ok(self.sought(name, &scopes[place..])),
            None => Ok(Sought::NotInOrder),
        }
    }
}
