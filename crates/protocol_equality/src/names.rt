// The names of commands.
use crate::NamedCommandMessage;

impl NamedCommandMessage for protocol_records::InputCommandMessage {
    ghost name_of = { λ command. command.name };

    fn name(&self) -> &str {
        self.name.as_str()
    }
}

impl NamedCommandMessage for protocol_records::OutputCommandMessage {
    ghost name_of = { λ command. command.name };

    fn name(&self) -> &str {
        self.name.as_str()
    }
}

impl NamedCommandMessage for protocol_records::SleepCommandMessage {
    ghost name_of = { λ command. command.name };

    fn name(&self) -> &str {
        self.name.as_str()
    }
}

impl NamedCommandMessage for protocol_commands::GetLazyStateCommandMessage {
    ghost name_of = { λ command. command.name };

    fn name(&self) -> &str {
        self.name.as_str()
    }
}

impl NamedCommandMessage for protocol_commands::GetLazyStateKeysCommandMessage {
    ghost name_of = { λ command. command.name };

    fn name(&self) -> &str {
        self.name.as_str()
    }
}

impl NamedCommandMessage for protocol_commands::GetEagerStateCommandMessage {
    ghost name_of = { λ command. command.name };

    fn name(&self) -> &str {
        self.name.as_str()
    }
}

impl NamedCommandMessage for protocol_commands::GetEagerStateKeysCommandMessage {
    ghost name_of = { λ command. command.name };

    fn name(&self) -> &str {
        self.name.as_str()
    }
}

impl NamedCommandMessage for protocol_commands::SetStateCommandMessage {
    ghost name_of = { λ command. command.name };

    fn name(&self) -> &str {
        self.name.as_str()
    }
}

impl NamedCommandMessage for protocol_commands::ClearStateCommandMessage {
    ghost name_of = { λ command. command.name };

    fn name(&self) -> &str {
        self.name.as_str()
    }
}

impl NamedCommandMessage for protocol_commands::ClearAllStateCommandMessage {
    ghost name_of = { λ command. command.name };

    fn name(&self) -> &str {
        self.name.as_str()
    }
}

impl NamedCommandMessage for protocol_commands::GetPromiseCommandMessage {
    ghost name_of = { λ command. command.name };

    fn name(&self) -> &str {
        self.name.as_str()
    }
}

impl NamedCommandMessage for protocol_commands::PeekPromiseCommandMessage {
    ghost name_of = { λ command. command.name };

    fn name(&self) -> &str {
        self.name.as_str()
    }
}

impl NamedCommandMessage for protocol_commands::CompletePromiseCommandMessage {
    ghost name_of = { λ command. command.name };

    fn name(&self) -> &str {
        self.name.as_str()
    }
}

impl NamedCommandMessage for protocol_commands::RunCommandMessage {
    ghost name_of = { λ command. command.name };

    fn name(&self) -> &str {
        self.name.as_str()
    }
}

impl NamedCommandMessage for protocol_calls::SendSignalCommandMessage {
    ghost name_of = { λ command. command.entry_name };

    fn name(&self) -> &str {
        self.entry_name.as_str()
    }
}

impl NamedCommandMessage for protocol_calls::AttachInvocationCommandMessage {
    ghost name_of = { λ command. command.name };

    fn name(&self) -> &str {
        self.name.as_str()
    }
}

impl NamedCommandMessage for protocol_calls::GetInvocationOutputCommandMessage {
    ghost name_of = { λ command. command.name };

    fn name(&self) -> &str {
        self.name.as_str()
    }
}

impl NamedCommandMessage for protocol_calls::CompleteAwakeableCommandMessage {
    ghost name_of = { λ command. command.name };

    fn name(&self) -> &str {
        self.name.as_str()
    }
}

impl NamedCommandMessage for protocol_calls::CallCommandMessage {
    ghost name_of = { λ command. command.name };

    fn name(&self) -> &str {
        self.name.as_str()
    }
}

impl NamedCommandMessage for protocol_calls::OneWayCallCommandMessage {
    ghost name_of = { λ command. command.name };

    fn name(&self) -> &str {
        self.name.as_str()
    }
}
