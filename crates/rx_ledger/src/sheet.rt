ghost use Rattle.std.specs.Prelude.{◌≡◌};

use crate::drug::Drug;
use crate::figures::Figures;
use crate::sheet_key::Wrong;
use rx_fields::{Door, Period, Product};
use rx_sorted::{Ascending, InsertError, Keyed};
use std::alloc::Global;
use std::marker::Model;

/// A product with what the plan says of it.
#[derive(Clone, Copy, PartialEq, Eq)]
pub struct Listed {
    /// The product.
    pub product: Product,
    /// What the plan says of it.
    pub drug: Drug,
}

impl Keyed for Listed {
    type Key = Product;

    ghost key_of = { λ listed. listed.product };

    fn key(&self) -> Product {
        self.product
    }
}

/// Why a drug was not added to a sheet.
#[derive(Clone, Copy, Debug, PartialEq, Eq)]
pub enum AddFault {
    /// Its price, copay or percentage is outside its range.
    Range,
    /// The sheet lists the product.
    There,
    /// There is no memory for one more.
    Memory,
}

ghost use Rattle.rx_ledger.specs.Keys.{add_fault_number};

impl AddFault {
    /// The fault's number, from 1, in the order in which they are looked for.
    pub fn code(self) -> u32
        ensures { result ≡ add_fault_number self }
    {
        match self {
            AddFault::Range => 1,
            AddFault::There => 2,
            AddFault::Memory => 3,
        }
    }
}

/// A plan sheet: figures within their ranges, and the drugs that the plan covers (docs/FORMATS.md, "Plan sheet").
#[derive(Drop)]
pub struct Sheet {
    figures: Figures,
    drugs: Ascending<Listed>,
}

impl Model for Sheet {
    ghost use Rattle.rx_ledger.specs.Plan.{Plan};

    ghost Value = { Plan };

    ghost use Rattle.rx_ledger.specs.Planned.{IsPlan};

    ghost view = { λ s. record { figures = s.figures; drugs = s.drugs } };

    ghost invariant = { λ s. IsPlan s.figures s.drugs };
}

ghost use Rattle.std.specs.Prelude.{◌↔◌, OnErr, OnOk, IsErrOf, true, false, IfSome};
ghost use Rattle.rx_ledger.specs.Plan.{AreFigures, are_drugs, drug_of, is_drug, lists, with_drug};
ghost use Rattle.rx_ledger.specs.Planned.{sheet_of};

impl Sheet {
    /// The sheet of these figures, without drugs; or the first figure outside its range.
    pub fn new(alloc: Global, figures: Figures) -> Result<Sheet, Wrong>
        ensures { result ≡ sheet_of figures }
    {
        match figures.wrong() {
            Some(key) => Err(Wrong(key)),
            None => Ok(Sheet {
                figures,
                drugs: Ascending::new(alloc),
            }),
        }
    }

    /// Adds a drug. On a refusal the sheet is unchanged.
    pub fn add(&mut self, product: Product, drug: Drug) -> Result<(), AddFault>
        ensures ok { OnOk result (self.new ≡ with_drug self.old product drug) }
        ensures err { OnErr result (self.new ≡ self.old) }
        ensures range { IsErrOf result AddFault.Range ↔ (is_drug drug ≡ false) }
        ensures there { IsErrOf result AddFault.There ↔ ((is_drug drug ≡ true) × (lists self.old product ≡ true)) }
    {
        if !drug.is_in_range() {
            return Err(AddFault::Range);
        }
        match self.drugs.insert(Listed { product, drug }) {
            Ok(()) => Ok(()),
            Err(InsertError::There(_)) => Err(AddFault::There),
            Err(InsertError::Memory(_)) => Err(AddFault::Memory),
        }
    }

    /// The figures.
    pub fn figures(&self) -> &Figures
        ensures value { result.now ≡ self.now.figures }
        ensures within { AreFigures self.now.figures }
    {
        &self.figures
    }

    /// The BIN and the processor control number that a transmission has to name.
    pub fn door(&self) -> &Door
        ensures { result.now ≡ self.now.figures.door }
    {
        &self.figures.door
    }

    /// The benefit period.
    pub fn period(&self) -> Period
        ensures { result ≡ self.now.figures.period }
    {
        self.figures.period
    }

    /// What the plan says of a product; None where it doesn't list it.
    pub fn drug(&self, product: Product) -> Option<Drug>
        ensures value { result ≡ drug_of self.now product }
        ensures within { IfSome result (λ drug. is_drug drug ≡ true) }
    {
        let listed = self.drugs.get(&product)?;
        Some(listed.drug)
    }

    /// The drugs that the plan covers, ascending by product.
    pub fn drugs(&self) -> &[Listed]
        ensures value { result.now ≡ self.now.drugs }
        ensures within { are_drugs self.now.drugs ≡ true }
    {
        self.drugs.as_slice()
    }
}
