ghost use Rattle.std.specs.Prelude.{◌≡◌, IfOk, Ok, option_copied};
ghost use Rattle.rx_io.specs.Files.{input_at, output_at};

use crate::device::Device;

/// Something of each input of a run: its name, its text, or a source that it is read from.
#[derive(Clone, Copy, Drop)]
pub struct Inputs<A, B = A, C = A> {
    /// The plan sheet.
    pub sheet: A,
    /// The opening books.
    pub books: B,
    /// The batch file.
    pub batch: C,
}

impl<T> Inputs<T> {
    /// Each of the three turned into another value.
    pub fn map<U, F: Fn(T) -> U>(self, f: F) -> Inputs<U>
        requires { F.IsAlwaysCallable f }
        ensures sheet { F.post f self.sheet result.sheet }
        ensures books { F.post f self.books result.books }
        ensures batch { F.post f self.batch result.batch }
    {
        Inputs {
            sheet: f(self.sheet),
            books: f(self.books),
            batch: f(self.batch),
        }
    }

    /// Each of the three turned into another value, in the order of their numbers, or the first error.
    pub fn try_map<U: Drop, E, F: Fn(Device, T) -> Result<U, E>>(self, f: F) -> Result<Inputs<U>, E>
    where
        T: Drop,
        requires { F.IsAlwaysCallable f }
        ensures sheet { IfOk result (λ made. F.post f Device.Sheet self.sheet (Ok made.sheet)) }
        ensures books { IfOk result (λ made. F.post f Device.Books self.books (Ok made.books)) }
        ensures batch { IfOk result (λ made. F.post f Device.Batch self.batch (Ok made.batch)) }
    {
        let sheet = f(Device::Sheet, self.sheet)?;
        let books = f(Device::Books, self.books)?;
        let batch = f(Device::Batch, self.batch)?;
        Ok(Inputs {
            sheet,
            books,
            batch,
        })
    }

    /// The three, lent.
    pub fn as_ref(&self) -> Inputs<&T>
        ensures sheet { result.sheet.now ≡ self.now.sheet }
        ensures books { result.books.now ≡ self.now.books }
        ensures batch { result.batch.now ≡ self.now.batch }
    {
        Inputs {
            sheet: &self.sheet,
            books: &self.books,
            batch: &self.batch,
        }
    }

    /// That of a device; none where it is an output.
    pub fn get(&self, device: Device) -> Option<&T>
        ensures { option_copied result ≡ input_at device self.now }
    {
        match device {
            Device::Sheet => Some(&self.sheet),
            Device::Books => Some(&self.books),
            Device::Batch => Some(&self.batch),
            Device::Response | Device::EndBooks | Device::Settlement => None,
        }
    }
}

/// Something of each output of a run.
#[derive(Clone, Copy, Drop)]
pub struct Outputs<A, B = A, C = A> {
    /// The response file.
    pub response: A,
    /// The end books.
    pub books: B,
    /// The settlement.
    pub settlement: C,
}

impl<T> Outputs<T> {
    /// Each of the three turned into another value.
    pub fn map<U, F: Fn(T) -> U>(self, f: F) -> Outputs<U>
        requires { F.IsAlwaysCallable f }
        ensures response { F.post f self.response result.response }
        ensures books { F.post f self.books result.books }
        ensures settlement { F.post f self.settlement result.settlement }
    {
        Outputs {
            response: f(self.response),
            books: f(self.books),
            settlement: f(self.settlement),
        }
    }

    /// Each of the three turned into another value, in the order of their numbers, or the first error.
    pub fn try_map<U: Drop, E, F: Fn(Device, T) -> Result<U, E>>(
        self,
        f: F,
    ) -> Result<Outputs<U>, E>
    where
        T: Drop,
        requires { F.IsAlwaysCallable f }
        ensures response { IfOk result (λ made. F.post f Device.Response self.response (Ok made.response)) }
        ensures books { IfOk result (λ made. F.post f Device.EndBooks self.books (Ok made.books)) }
        ensures settlement { IfOk result (λ made. F.post f Device.Settlement self.settlement (Ok made.settlement)) }
    {
        let response = f(Device::Response, self.response)?;
        let books = f(Device::EndBooks, self.books)?;
        let settlement = f(Device::Settlement, self.settlement)?;
        Ok(Outputs {
            response,
            books,
            settlement,
        })
    }

    /// The three, lent.
    pub fn as_ref(&self) -> Outputs<&T>
        ensures response { result.response.now ≡ self.now.response }
        ensures books { result.books.now ≡ self.now.books }
        ensures settlement { result.settlement.now ≡ self.now.settlement }
    {
        Outputs {
            response: &self.response,
            books: &self.books,
            settlement: &self.settlement,
        }
    }

    /// That of a device; none where it is an input.
    pub fn get(&self, device: Device) -> Option<&T>
        ensures { option_copied result ≡ output_at device self.now }
    {
        match device {
            Device::Response => Some(&self.response),
            Device::EndBooks => Some(&self.books),
            Device::Settlement => Some(&self.settlement),
            Device::Sheet | Device::Books | Device::Batch => None,
        }
    }
}
