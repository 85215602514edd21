// The settings of the box, by value.
#![tactic(auto)]

ghost use Rattle.std.specs.Prelude.{◌≡◌};
ghost use Rattle.settings.specs.Settings.{usually, headed, restricted_to, variably};

#[derive(Clone, Copy)]
pub struct Settings {
    pub header: usize,
    pub restricted: bool,
    pub variable: bool,
}

impl Settings {
    // "header length 0 to 16 (usual 4)"; a call judges the limit itself, in its place
    pub const LONGEST_HEADER: usize = 16;

    pub const USUAL_HEADER: usize = 4;
    // "the setting's default turns from No to Yes"
    pub const USUAL_RESTRICTED: bool = true;
    // "variable length offset, usual No"
    pub const USUAL_VARIABLE: bool = false;

    pub fn usual() -> Self
        ensures { result ≡ usually }
    {
        Settings {
            header: Self::USUAL_HEADER,
            restricted: Self::USUAL_RESTRICTED,
            variable: Self::USUAL_VARIABLE,
        }
    }

    pub fn with_header(self, header: usize) -> Self
        ensures { result ≡ headed self header }
    {
        Settings { header, ..self }
    }

    pub fn with_restricted(self, restricted: bool) -> Self
        ensures { result ≡ restricted_to self restricted }
    {
        Settings { restricted, ..self }
    }

    pub fn with_variable(self, variable: bool) -> Self
        ensures { result ≡ variably self variable }
    {
        Settings { variable, ..self }
    }
}
