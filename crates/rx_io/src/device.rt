ghost use Rattle.std.specs.Prelude.{◌≡◌};
ghost use Rattle.rx_io.specs.Files.{device_number, device_name, device_option};

/// The devices of a run, in the order of their numbers: inputs, which are read, and outputs, which are written.
#[derive(Clone, Copy, Debug, PartialEq, Eq)]
pub enum Device {
    /// The plan sheet.
    Sheet,
    /// The opening books.
    Books,
    /// The batch file.
    Batch,
    /// The response file.
    Response,
    /// The end books.
    EndBooks,
    /// The settlement.
    Settlement,
}

impl Device {
    /// The device's number, 1 to 6.
    pub fn number(self) -> u8
        ensures { result ≡ device_number self }
    {
        match self {
            Device::Sheet => 1,
            Device::Books => 2,
            Device::Batch => 3,
            Device::Response => 4,
            Device::EndBooks => 5,
            Device::Settlement => 6,
        }
    }

    /// What a message calls its file.
    pub fn name(self) -> &'static str
        ensures { result.now ≡ device_name self }
    {
        match self {
            Device::Sheet => "sheet",
            Device::Books => "books",
            Device::Batch => "batch",
            Device::Response => "response",
            Device::EndBooks => "end books",
            Device::Settlement => "settlement",
        }
    }

    /// The option that names its file.
    pub fn option(self) -> &'static str
        ensures { result.now ≡ device_option self }
    {
        match self {
            Device::Sheet => "--sheet",
            Device::Books => "--books",
            Device::Batch => "--batch",
            Device::Response => "--response",
            Device::EndBooks => "--books-out",
            Device::Settlement => "--settlement",
        }
    }
}
