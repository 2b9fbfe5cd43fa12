// PARSE, ARG and PULL.
ghost use Rattle.std.specs.Prelude.{◌≡◌, ℕ, List, map, IfOk, IsErr, OnOk};
ghost use Rattle.rx_clause_tree.specs.declared.template.Template.{Template};
ghost use Rattle.rx_frames.specs.Activities.{IsBegun};
ghost use Rattle.rx_template.specs.declared.template.TPart.{TPart};
ghost use Rattle.rx_machine.specs.Raising.{raised};
ghost use Rattle.rx_machine.specs.Templates.{cuts, parses, texts_from};
ghost use Rattle.rx_machine.specs.Turns.{Turn};
ghost use Rattle.rx_kernel.specs.Parsing.{bound_of};
ghost use Rattle.rx_kernel.specs.States.{world_of};
ghost use Rattle.rx_kernel.specs.Stepping.{IsStepped, IsTurn};

use crate::binding::{BindRefused, Bound, bind_all};
use crate::cutting::{all_rows, in_case};
use crate::state::State;
use crate::stepped::{Here, Stepped};
use rx_clause_tree::Parse;
use rx_tree::{OutOfMemory, Value};
use std::alloc::Global;

impl State {
    // The clause of an activity's frame on top cuts its texts by templates whose values are known.
    fn cuts(
        &mut self,
        alloc: Global,
        a: u32,
        here: Here,
        parse: &Parse,
        bounds: &[Bound],
        values: &[Value],
    ) -> Result<Stepped, OutOfMemory>
        requires begun { IsBegun self.old.parts.stacks a }
        requires turn { (t : Turn) × IsTurn self.old a here t }
        ensures { (t : Turn) → IsTurn self.old a here t
            → (all : List (Template × List TPart)) → map bound_of all ≡ bounds.now
            → IfOk result (λ stepped. IsStepped (world_of self.old)
            (cuts t parse.now.upper all (texts_from t values.now parse.now.from)) stepped (world_of self.new)) }
    {
        let Some(texts) = self.take_texts(alloc, a, &parse.from, values)? else {
            return Ok(Stepped::WantsLine);
        };
        let texts = in_case(alloc, parse.upper, texts)?;
        let rows = all_rows(alloc, bounds, texts.as_slice())?;
        self.go_on(a, here.next);
        self.assigns(alloc, a, here.line, rows.as_slice())?;
        Ok(Stepped::Done)
    }

    // A value in a template isn't known: the error of this number is raised, or memory is wanted.
    fn refuse(&mut self, a: u32, line: u32, refused: BindRefused) -> Result<(), OutOfMemory>
        requires begun { IsBegun self.old.parts.stacks a }
        ensures raised { (number : ℕ) → refused ≡ BindRefused.Raised number
            → OnOk result (world_of self.new ≡ raised (world_of self.old) a number line) }
        ensures memory { refused ≡ BindRefused.OutOfMemory → IsErr result }
    {
        match refused {
            BindRefused::Raised(number) => self.raise(a, number, line),
            BindRefused::OutOfMemory => Err(OutOfMemory),
        }
    }

    /// The clause of an activity's frame on top cuts texts by its templates, where it has these values: those in the templates are
    /// taken first, and then its variables get their pieces in order.
    pub(crate) fn parses(
        &mut self,
        alloc: Global,
        a: u32,
        here: Here,
        parse: &Parse,
        values: &[Value],
    ) -> Result<Stepped, OutOfMemory>
        requires begun { IsBegun self.old.parts.stacks a }
        requires turn { (t : Turn) × IsTurn self.old a here t }
        ensures { (t : Turn) → IsTurn self.old a here t
            → IfOk result (λ stepped. IsStepped (world_of self.old) (parses t parse.now values.now) stepped (world_of self.new)) }
    {
        let bounds = bind_all(
            alloc,
            &self.parts.stacks,
            &self.parts.pools,
            a,
            parse.templates.as_slice(),
        );
        match bounds {
            Ok(bounds) => self.cuts(alloc, a, here, parse, bounds.as_slice(), values),
            Err(refused) => {
                self.refuse(a, here.line, refused)?;
                Ok(Stepped::Done)
            }
        }
    }
}
