mod printing;
mod reading;
