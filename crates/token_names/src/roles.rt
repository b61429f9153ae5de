// What names are declared as.

/// What a name is declared as.
#[derive(Clone, Copy)]
pub enum Role {
    /// The tag of a struct.
    Struct,
    /// The tag of a union.
    Union,
    Function,
    Global,
    Member,
    Parameter,
    Local,
    Region,
}

impl Role {
    /// Whether the whole text sees it.
    pub fn is_of_text(self) -> bool {
        matches!(
            self,
            Role::Struct | Role::Union | Role::Function | Role::Global
        )
    }

    /// Whether a block sees it.
    pub fn is_of_block(self) -> bool {
        matches!(self, Role::Parameter | Role::Local)
    }

    /// What it is called.
    pub fn words(self) -> &'static str {
        match self {
            Role::Struct => "struct",
            Role::Union => "union",
            Role::Function => "function",
            Role::Global => "global",
            Role::Member => "member",
            Role::Parameter => "parameter",
            Role::Local => "local",
            Role::Region => "region",
        }
    }
}
