// Calls of variables.
use crate::line::{Line, Name, told_value, value_of, wanting};
use rx_tree::Place;
use rx_vars::Vars;
use std::alloc::{AllocError, Global};

/// The variables that calls are made on.
pub struct VariableCases {
    vars: Vars,
}

impl Drop for VariableCases {
    fn drop(self) {
        let VariableCases { vars: _ } = self;
    }
}

fn place_of(line: &Line, place: usize) -> Place {
    match line.bytes(place) {
        b"here" => Place::Here,
        b"below" => Place::Below,
        _ => Place::Pool(line.number(place).min(u64::from(u32::MAX)) as u32),
    }
}

fn told_place(alloc: Global, place: Place) -> Result<String, AllocError> {
    match place {
        Place::Here => String::from_str(alloc, "here"),
        Place::Below => String::from_str(alloc, "below"),
        Place::Pool(number) => format!(in alloc; "pool {number}"),
    }
}

impl VariableCases {
    /// No variable has a value, and they are alone.
    pub fn new(alloc: Global) -> VariableCases {
        VariableCases {
            vars: Vars::new(alloc, true),
        }
    }

    fn set(&mut self, alloc: Global, name: &Name, bytes: &[u8]) -> Result<(), AllocError> {
        let value = value_of(alloc, bytes)?;
        self.vars.set(&name.derived, value).map_err(wanting)
    }

    // Sets so many compounds of a stem.
    fn fill(&mut self, alloc: Global, stem: &[u8], count: u64) -> Result<(), AllocError> {
        for number in 1..=count {
            let name = Name::numbered(alloc, stem, number)?;
            self.set(alloc, &name, b"filled")?;
        }
        Ok(())
    }

    // A call on a name that changes something; whether there is such a call.
    fn change(&mut self, alloc: Global, line: &Line) -> Result<bool, AllocError> {
        let name = line.name(alloc, 1)?;
        match line.bytes(0) {
            b"set" => self.set(alloc, &name, line.bytes(2))?,
            b"drop" => self.vars.drop_name(&name.derived).map_err(wanting)?,
            b"expose" => self
                .vars
                .expose(&name.derived, place_of(line, 2))
                .map_err(wanting)?,
            _ => return Ok(false),
        }
        Ok(true)
    }

    // What a call on a name that changes nothing comes to.
    fn look(&self, alloc: Global, line: &Line) -> Result<Option<String>, AllocError> {
        let name = line.name(alloc, 1)?;
        match line.bytes(0) {
            b"get" => Ok(Some(told_value(alloc, self.vars.get(&name.derived))?)),
            b"place" => Ok(Some(told_place(alloc, self.vars.place(&name.derived))?)),
            _ => Ok(None),
        }
    }

    /// What a call of variables comes to.
    pub fn tell(&mut self, alloc: Global, line: &Line) -> Result<Option<String>, AllocError> {
        match line.bytes(0) {
            b"vars" => self.vars = Vars::new(alloc, line.bytes(1) == b"alone".as_slice()),
            b"fill" => self.fill(alloc, line.bytes(1), line.number(2))?,
            _ if self.change(alloc, line)? => {}
            _ => return self.look(alloc, line),
        }
        Ok(Some(String::from_str(alloc, "done")?))
    }
}
